//! Library cells and their roles (Liberty).

use plain_lists::{List, Name};

/// Which way a port or a pin carries its signal.
#[derive(Clone, Copy, Debug, PartialEq, Eq)]
pub enum Dir {
    Input,
    Output,
}

/// A pin of a cell.
#[derive(Clone, Drop, PartialEq, Eq)]
pub struct Pin {
    pub name: Name,
    pub dir: Dir,
}

/// A library cell. `through` is the pin that an isolation cell or level shifter passes on, `enable` its enable pin.
#[derive(Clone, Drop, PartialEq, Eq)]
pub struct Cell {
    pub name: Name,
    pub pins: List<Pin>,
    /// It is an isolation cell.
    pub iso: bool,
    /// It is a level shifter.
    pub shift: bool,
    pub through: Option<u32>,
    pub enable: Option<u32>,
}

/// The cells of the libraries.
#[derive(Clone, Drop)]
pub struct Cells {
    pub cells: List<Cell>,
}
