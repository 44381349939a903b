//! The plain types that the crates share: lists and names, cells, modules and designs, supplies, conditions and
//! power intent, chains and watches, models, reports, and the faults that each step can answer.
//!
//! Numbers that name things (`u32` fields such as `inst` or `supply`) are positions in the list of those things.
//! Voltages are microvolts. All fields are public: the types say what there is, and the crates that make the values
//! say in their contracts what holds of them.
#![tactic(auto)]

mod cells;
mod chains;
mod conditions;
mod design;
mod faults;
mod intent;
mod memory;
mod model;
mod netlist;
mod report;
mod script;
mod status;
mod strategies;
mod supplies;
mod terms;
mod values;

pub use cells::{Cell, Cells, Dir, Pin};
pub use chains::{Chain, Crossings, Element, Kind, Partial, Sense, Walk, Watch};
pub use conditions::{Cond, UnitCond, copy_cond, copy_conds};
pub use design::{Bit, Body, Design, Feeder, Instance, Named, PortBit};
pub use faults::{
    At, AtModule, CheckFault, CmdFault, Code, DesignFault, DomainFault, LibFault, ListFault,
    LoadFault, MergeFault, ModelFault, NetFault, Refusal, SupplyFault, TclFault, TermFault,
    VoltFault,
};
pub use intent::{CellSet, Domain, Export, Face, Intent, PortSet, RootList, SupplySet, Unit, Want};
pub use model::{KeptWatch, Made, Make, Model, ModelSupply, OutPort};
pub use netlist::{Assign, Conn, Expr, Inst, Module, Net, Port};
pub use plain_lists::{Bytes, DiagFault, Kept, KeptNode, List, Memory, Name, Place};
pub use report::{Boundary, Finding, Report};
pub use script::{Command, Given, Line, Options};
pub use sqlite_items::Boxed;
pub use status::Status;
pub use strategies::{Act, Candidate, Choice, Filter, Mode, Strategy, Tool};
pub use supplies::{Said, Supply, SupplyKind, SwitchText};
pub use terms::{NamedState, Term, TermNames};
pub use values::{State, Value, compare_values, exceeds};
