// What a built object lacks while some of its follow-ups are to come: under growth, under one follow-up, and at the end.
#![tactic(auto)]
