//! The rows of nets.

/// A net of a module, a pin of a cell, or a port of a model: its name, its range if it is a vector, its number among the
/// ports, if it is one, and the number of its first bit among the bits of the module, cell or model.
///
/// In a module the name is a symbol; in a cell or a model it is the number of the pin or port.
#[derive(Clone, Copy)]
pub struct NetRow {
    pub name: u32,
    pub range: Option<(u32, u32)>,
    pub port: Option<u32>,
    pub first: u64,
}

/// A row with the spelling of its name.
#[derive(Clone, Copy)]
pub struct NamedRow<'a> {
    pub name: &'a [u8],
    pub row: NetRow,
}
