//! The run of a job, from its words to the bytes of its report, and the answer to the texts of its files.
#![tactic(auto)]

mod answers;
mod fetching;
mod judging;
mod laws;
mod loading;
mod planning;
mod refusals;
mod runs;
mod telling;
mod words;

pub use answers::{Answer, sign_off};
pub use laws::one_answer;
pub use runs::run;
