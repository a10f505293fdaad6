// Every planned statement of a bounded heap can be read back.
#![tactic(auto)]
