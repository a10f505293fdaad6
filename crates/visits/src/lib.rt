// The visit of a heap from its root: that its order is what a plan by places needs, on a function's contract.
#![tactic(auto)]

ghost use Rattle.visits.specs.Stands.{VisitStands};

pub fn visit_stands()
    ensures { VisitStands }
{}
