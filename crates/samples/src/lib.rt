// Sample dumps: that the definitions give each the heap that it was made of, and its script, and that the script rebuilds the heap.
#![tactic(auto)]

ghost use Rattle.samples.specs.Deep.{DeepStands};
ghost use Rattle.samples.specs.Dumps.{SamplesStand};
ghost use Rattle.samples.specs.Scripts.{ScriptsStand, ScriptsRebuild};

pub fn samples_stand()
    ensures heaps { SamplesStand }
    ensures scripts { ScriptsStand }
    ensures deep { DeepStands }
    ensures rebuilt { ScriptsRebuild }
{}
