// What the expressions and statements of a script do to the evaluator's state, said of the syntax and not of its text: definitions.
#![tactic(auto)]
