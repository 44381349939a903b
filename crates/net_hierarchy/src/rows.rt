//! What is read of stored modules, by their numbers.
ghost use Rattle.std.specs.Prelude.{◌≡◌, ◌<◌, ◌↔◌, Some, length, slice_get, IsTrue, IfOk};
ghost use Rattle.module_rows.specs.Reads.{inst_at, module_at, IsPort};

use module_rows::{Modules, PortRow};
use pw_defs::{AtModule, Dir, Memory, Name, Port};
use std::alloc::Global;

/// The name of a module.
pub(crate) fn name_of(modules: &Modules, number: u32) -> &[u8]
    requires { number < length modules.now.modules }
    ensures { result.now ≡ (module_at modules.now number).name }
{
    modules.spelling(modules.module(number).name)
}

/// What an instance of a module is an instance of.
pub(crate) fn kind_of(modules: &Modules, holder: u32, inst: u32) -> &[u8]
    requires holder { holder < length modules.now.modules }
    requires inst { inst < length (module_at modules.now holder).insts }
    ensures { result.now ≡ (inst_at modules.now holder inst).kind }
{
    modules.spelling(modules.inst(holder, inst).kind)
}

/// Where a fault of a module by itself stands.
pub(crate) fn place_of(alloc: Global, modules: &Modules, number: u32) -> Result<AtModule, Memory>
    requires { number < length modules.now.modules }
    ensures { IfOk result (λ at. at ≡ record { «module» = number; line = (module_at modules.now number).line; name = (module_at modules.now number).name }) }
{
    Ok(AtModule {
        module: number,
        line: modules.module(number).line,
        name: Name::from_slice(alloc, name_of(modules, number))?,
    })
}

/// Whether a symbol is spelled so.
fn is_spelled(modules: &Modules, symbol: u32, name: &[u8]) -> bool
    ensures { IsTrue result ↔ (slice_get modules.now.symbols symbol ≡ Some name.now) }
{
    symbol < modules.symbols() && modules.spelling(symbol) == name
}

/// Whether two directions are the same.
fn same_dir(left: Dir, right: Dir) -> bool
    ensures { IsTrue result ↔ (left ≡ right) }
{
    match left {
        Dir::Input => match right {
            Dir::Input => true,
            Dir::Output => false,
        },
        Dir::Output => match right {
            Dir::Input => false,
            Dir::Output => true,
        },
    }
}

/// Whether two ranges are the same.
fn same_range(left: Option<(u32, u32)>, right: Option<(u32, u32)>) -> bool
    ensures { IsTrue result ↔ (left ≡ right) }
{
    match left {
        Some(ends) => match right {
            Some(other) => ends.0 == other.0 && ends.1 == other.1,
            None => false,
        },
        None => right.is_none(),
    }
}

/// Whether what was read of a port is this one.
fn is_port(modules: &Modules, row: PortRow, port: &Port) -> bool
    ensures { IsTrue result ↔ IsPort modules.now port.now row }
{
    is_spelled(modules, row.name, port.name.as_slice())
        && same_dir(row.dir, port.dir)
        && same_range(row.range, port.range)
}

/// Whether a module has these ports, in this order.
pub(crate) fn has_ports(modules: &Modules, number: u32, ports: &[Port]) -> bool
    requires { number < length modules.now.modules }
    ensures { IsTrue result ↔ (ports.now ≡ (module_at modules.now number).ports) }
{
    if ports.len() != modules.module(number).ports as usize {
        return false;
    }
    for (place, port) in ports.iter().enumerate() {
        if !is_port(modules, modules.port(number, place as u32), port) {
            return false;
        }
    }
    true
}
