//! What the lines of a library say.

use pw_defs::{Dir, List, Name};

/// What a pin is to an isolation cell or a level shifter: the data that it passes on, or what enables it.
#[derive(Clone, Copy, Debug, PartialEq, Eq)]
pub enum Role {
    IsolationData,
    IsolationEnable,
    ShifterData,
    ShifterEnable,
}

/// A pin of a cell.
#[derive(Drop)]
pub struct PinLine {
    pub name: Name,
    pub dir: Dir,
    pub role: Option<Role>,
}

/// Which kind of cell the lines of a cell say that it is: `Plain` where they say nothing.
#[derive(Clone, Copy, Debug, PartialEq, Eq)]
pub enum CellKind {
    Plain,
    Isolation,
    Shifter,
}

/// The lines of a cell.
#[derive(Drop)]
pub struct CellLines {
    pub name: Name,
    pub kind: CellKind,
    pub pins: List<PinLine>,
}

/// The lines of a library.
#[derive(Drop)]
pub struct Library {
    pub name: Name,
    pub cells: List<CellLines>,
}
