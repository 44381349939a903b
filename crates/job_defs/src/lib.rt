//! Definitions of a job, of its first fault, and of what is answered on it over the files of a shelf. It has no code.
#![tactic(auto)]
