//! Running the lines of a power intent script, with the files and power models that they open, to a last world or to the
//! first refusal.
//!
//! What one line does to the world is done by others, whom the trait `LineSteps` stands for; here are the frames, the
//! fetching of files and the order of faults. It meets `Ends` of `script_defs`.
#![tactic(auto)]

mod fetching;
mod frames;
mod running;
mod scripts;
mod steps;

pub use frames::{Frame, Openings, Source};
pub use scripts::run_script;
pub use steps::{LineSteps, StepFault};
