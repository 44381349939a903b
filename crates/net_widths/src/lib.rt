//! Connections that name no port of the type of their instance, names that are selected wrongly, and lines whose sides have
//! different widths: of each module the first such fault by line, then by name. A module has these wherever it stands.
#![tactic(auto)]

mod laws;
mod names;
mod ports;
mod refusals;
mod sides;
mod targets;
mod widths;

pub use laws::what_is_wired;
pub use ports::port_faults;
pub use targets::have_targets;
pub use widths::width_faults;
