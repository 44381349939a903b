//! Readers of texts that are sequences of lines of fixed forms: a library of cells, a netlist and a script of power
//! commands. A reader answers what the lines say, exactly where the whole text is such a sequence.
#![tactic(auto)]

mod fault;
mod library_lines;
mod library_reader;
mod netlist_lines;
mod netlist_reader;
mod script_lines;
mod script_reader;
mod text;
mod voltage;

pub use fault::ReadFault;
pub use library_lines::{CellKind, CellLines, Library, PinLine, Role};
pub use library_reader::read_library;
pub use netlist_lines::{ConnWords, InstLine, ItemLine, ModuleLines, PortWords};
pub use netlist_reader::read_netlist;
pub use script_lines::{CommandLine, StateWords};
pub use script_reader::read_script;
