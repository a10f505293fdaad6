// What `check` means: the theorems above the verdict, each on a function's contract.
#![tactic(auto)]

ghost use Rattle.formed.specs.Theorems.{AcceptedExactlyIfSound, AcceptedIsFormed};

// A dump is accepted exactly if every rule holds at every row, and its heap is then well formed.
pub fn verdict_stands()
    ensures sound { AcceptedExactlyIfSound }
    ensures formed { AcceptedIsFormed }
{}
