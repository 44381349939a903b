//! Expressions of power states (IEEE 1801-2015, `add_power_state`) read into terms.
//!
//! A text is read by recursive descent, a word or mark at a time, so that nothing is kept of it but the term. It meets
//! `ReadsAsTerm` of `power_states`.
#![tactic(auto)]

mod terms;
mod values;
mod voltages;
mod words;

pub use terms::{read_logic_expr, read_supply_expr};
