//! The laws of designs that are made from sources: such a design is sound. It has no code.
#![tactic(auto)]
