// Traces of a delivery, and the main statement about them: definitions. The calls are to come; of bounded heaps it is proved in the crate faithful.
#![tactic(auto)]
