//! What is read of modules by number.

/// What is read of a module: the symbol of its name, its line, and how many ports, wires, assignments and instances it has.
#[derive(Clone, Copy)]
pub struct ModuleHead {
    pub name: u32,
    pub line: u32,
    pub ports: u32,
    pub nets: u32,
    pub assigns: u32,
    pub insts: u32,
}

/// What is read of an instance: the symbols of what it is an instance of and of its name, its line, and how many
/// connections it has.
#[derive(Clone, Copy)]
pub struct InstHead {
    pub kind: u32,
    pub name: u32,
    pub line: u32,
    pub conns: u32,
}

/// What is read of a connection: the symbol of the port, and the number of the expression, `None` for an empty one.
#[derive(Clone, Copy)]
pub struct ConnHead {
    pub port: u32,
    pub expr: Option<u32>,
}

/// What is read of an expression, with the symbols of its names. What is in a concatenation is read by the numbers of the
/// expressions before it.
#[derive(Clone, Copy)]
pub enum ExprHead {
    Whole(u32),
    Bit(u32, u32),
    Part(u32, u32, u32),
    Const(u32),
    Join,
}
