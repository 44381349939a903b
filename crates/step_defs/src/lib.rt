//! Definitions of steps that give a value or have a fault, of steps one after another, and the laws that such a step
//! has one answer. It has no code.
#![tactic(auto)]
