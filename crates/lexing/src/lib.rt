// The evaluator's lexer finds in the bytes of a line the tokens of its items: theorems alone.
#![tactic(auto)]
