//! What the readers of texts share: voltages as they are written and printed (IEEE 1801 gives voltages as decimal numbers).
#![tactic(auto)]

mod cursor;
mod printing;
mod voltages;

pub use cursor::Cursor;
pub use printing::volts_text;
pub use voltages::read_volts;
