//! Definitions of supplies and their states: the supply network with its roots, the values that a root may have as a unit
//! sees it, conditions on supplies and on supply sets, and legal states. It has no code.
#![tactic(auto)]
