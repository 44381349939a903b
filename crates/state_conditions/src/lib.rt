//! The conditions that expressions of power states stand for (IEEE 1801-2015, `add_power_state`).
//!
//! Each state that an expression names stands for its own condition, which is copied into that of the expression. It meets
//! `Means` of `power_states`.
#![tactic(auto)]

mod meanings;
mod named;

pub use meanings::constraint_of;
