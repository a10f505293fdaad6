// The plan of a script: definitions of its lines. The code that finds them is to come.
#![tactic(auto)]
