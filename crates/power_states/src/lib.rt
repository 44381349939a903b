//! Expressions of power states: which texts are supply and logic expressions, and which condition an expression stands for. It
//! has no code.
#![tactic(auto)]
