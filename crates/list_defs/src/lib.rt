//! Definitions of members, orders and lists in order, with their laws. It has no code.
#![tactic(auto)]
