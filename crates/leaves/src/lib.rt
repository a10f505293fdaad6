// What the numbers, names and constructors of a script give in the evaluator: lemmas.
#![tactic(auto)]
