//! The readers of jobs put together: what the texts of libraries, netlists and scripts give, and so what a job deserves
//! over the files of a shelf. It has no code.
#![tactic(auto)]
