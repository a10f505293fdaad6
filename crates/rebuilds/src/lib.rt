// How a script rebuilds a heap, line by line: what the order of its objects must have, what each line makes, and what an object still lacks before its follow-ups.
#![tactic(auto)]
