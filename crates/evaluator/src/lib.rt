// The evaluator: definitions of how a line is read and run, by ECMA-262. Nothing here knows of the plan.
#![tactic(auto)]
