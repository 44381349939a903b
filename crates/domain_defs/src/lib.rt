//! Definitions of power domains and strategies: which domain an instance is in, the faces of ports between domains, the
//! candidates at a face and the effective one, the supply sets of cells and ports, and sound intents. It has no code.
#![tactic(auto)]
