//! Definitions of running scripts: the world that a script makes, what each command does to it and which faults it
//! has, runs and where they stop, and the intent of a final world. It has no code.
#![tactic(auto)]
