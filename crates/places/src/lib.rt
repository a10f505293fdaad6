// Facts of an order of a heap's objects: places, names, backing views, lines and follow-ups.
#![tactic(auto)]
