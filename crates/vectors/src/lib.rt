// Dumps with the scripts that they must get: that the definitions give just these, and that these rebuild the heaps, on a function's contract.
#![tactic(auto)]

ghost use Rattle.std.specs.List.{AllByRecursion};
ghost use Rattle.vectors.specs.Cases.{Holds, Rebuilds};
ghost use Rattle.vectors.specs.Tables.{tables};

pub fn vectors_stand()
    ensures written { AllByRecursion (AllByRecursion Holds) tables }
    ensures rebuilt { AllByRecursion (AllByRecursion Rebuilds) tables }
{}
