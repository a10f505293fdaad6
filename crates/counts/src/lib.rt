// Every object of a heap is made at most once by all lines of its script.
#![tactic(auto)]
