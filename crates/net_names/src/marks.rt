//! Marks of the symbols that name the instances and the vector ports of one module.
ghost use Rattle.std.specs.Prelude.{◌≡◌, ◌<◌, ◌↔◌, IsTrue, true, length, set};
ghost use Rattle.list_defs.specs.Members.{IsIn, all_differ, same_name};
ghost use Rattle.module_rows.specs.Reads.{module_at};
ghost use Rattle.net_names.specs.Apart.{inst_names};
ghost use Rattle.net_names.specs.Marks.{AreMarked, AreVectorsMarked, IsMarked, MarksVector};

use module_rows::Modules;

/// Whether a name bears a mark.
pub(crate) fn is_marked(modules: &Modules, marks: &[u32], stamp: u32, name: &[u8]) -> bool
    ensures { IsTrue result ↔ IsMarked modules.now.symbols marks.now stamp name.now }
{
    match modules.symbol(name) {
        Some(symbol) => match marks.get(symbol as usize) {
            Some(mark) => *mark == stamp,
            None => false,
        },
        None => false,
    }
}

/// Marks a symbol.
fn set_mark(marks: &mut Vec<u32>, symbol: u32, stamp: u32)
    ensures { marks.new.items ≡ set marks.old.items symbol stamp }
{
    if (symbol as usize) < marks.len() {
        marks[symbol as usize] = stamp;
    }
}

/// Marks the names of the instances of a module.
pub(crate) fn mark_insts(modules: &Modules, holder: u32, stamp: u32, marks: &mut Vec<u32>)
    requires { holder < length modules.now.modules }
    ensures { all_differ same_name modules.now.symbols ≡ true → length marks.old.items ≡ length modules.now.symbols
        → AreMarked modules.now.symbols marks.new.items stamp (λ name. IsIn name (inst_names (module_at modules.now holder))) }
{
    for inst in 0..modules.module(holder).insts {
        set_mark(marks, modules.inst(holder, inst).name, stamp);
    }
}

/// Marks the symbol of a port, where it is a vector.
fn mark_vector(marks: &mut Vec<u32>, symbol: u32, stamp: u32, range: Option<(u32, u32)>)
    ensures { MarksVector marks.old.items symbol stamp range marks.new.items }
{
    match range {
        Some(_) => set_mark(marks, symbol, stamp),
        None => {}
    }
}

/// Marks the names of the vector ports of a module.
pub(crate) fn mark_vectors(modules: &Modules, holder: u32, stamp: u32, marks: &mut Vec<u32>)
    requires { holder < length modules.now.modules }
    ensures { all_differ same_name modules.now.symbols ≡ true → length marks.old.items ≡ length modules.now.symbols
        → AreVectorsMarked modules.now.symbols marks.new.items stamp (module_at modules.now holder).ports }
{
    for number in 0..modules.module(holder).ports {
        let port = modules.port(holder, number);
        mark_vector(marks, port.name, stamp, port.range);
    }
}
