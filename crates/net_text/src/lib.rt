//! The text of netlists: its tokens, the parsers of a module's header and items, what each of these declares, and the
//! fault of a text that cannot go on. `specs/NetlistFaults` says which text is read as which modules.
#![tactic(auto)]

mod classes;
mod declarations;
mod direct;
mod exprs;
mod faults;
mod headers;
mod items;
mod lists;
mod phrases;
mod pieces;
mod runs;
mod steps;
mod tokens;
mod words;

pub use classes::NetClass;
pub use declarations::{DeclarationAt, add_header, add_item};
pub use faults::fault_next;
pub use headers::{HeaderAt, PortAt, header};
pub use items::{ItemAt, item};
pub use phrases::{ShapeOf, name};
pub use tokens::{NameAt, Tokens};
pub use words::Word;
