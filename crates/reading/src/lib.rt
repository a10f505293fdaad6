// Reading a statement back: its tokens as trees, and what running them does.
#![tactic(auto)]
