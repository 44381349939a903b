//! Where files come from and where output goes.
//!
//! A `Shelf` gives files by name, and a `Sink` takes bytes. `SureShelf` and `SureSink` are kept in memory and never fail,
//! `MemShelf` and `MemSink` fail at chosen calls, and `DirShelf` and `StreamSink` stand before a folder and a stream.
//! The kinds in memory tell what they hold and took; of a folder or a stream nothing is claimed but the counts.
#![tactic(auto)]

mod folders;
mod held_bytes;
mod held_files;
mod shelves;
mod sinks;
mod streams;

pub use folders::DirShelf;
pub use held_bytes::{MemSink, SureSink};
pub use held_files::{MemShelf, SureShelf};
pub use shelves::{LONGEST_FILE, Shelf, ShelfFault};
pub use sinks::{PutFault, Sink};
pub use streams::StreamSink;

/// How often a read or a write that is interrupted is tried before it counts as failed.
const MOST_TRIES: u32 = 1000;
