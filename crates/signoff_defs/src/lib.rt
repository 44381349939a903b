//! Definitions of chains with their sets, what is watched on them, the order of supply roots, witnesses, findings and the
//! report with its text. It has no code.
#![tactic(auto)]
