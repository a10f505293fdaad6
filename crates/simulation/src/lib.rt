// The simulation: line by line, the evaluator's store stands for more of the heap.
#![tactic(auto)]
