// Expressions evaluate: what is planned for a value and for an object of each kind makes it, with all that hangs in it.
#![tactic(auto)]
