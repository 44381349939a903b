//! What contracts see in place of rows.

use pw_defs::{Expr, List, Module, Name};

/// What stored modules are seen as: the spellings by the numbers of the symbols, the expressions by their numbers, those
/// inside others too, and the modules.
#[derive(Drop)]
pub struct Netlist {
    pub symbols: List<Name>,
    pub exprs: List<Expr>,
    pub modules: List<Module>,
}

/// What a builder is seen as: the modules that are whole, and the one that is open, which has no name and no line yet.
#[derive(Drop)]
pub struct Draft {
    pub modules: List<Module>,
    pub current: Module,
}
