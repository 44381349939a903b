//! Commands of power intent: the table of commands with their options, which lines are commands, and the first fault of a
//! line that is none. It has no code.
#![tactic(auto)]
