//! The paths of instances by their numbers.
ghost use Rattle.std.specs.Prelude.{◌≡◌, ℕ, ◌++◌, List, IfOk, OnOk, Some, length, map, slice_get};
ghost use Rattle.design_defs.specs.Hierarchy.{Sources, Way, path};
ghost use Rattle.design_defs.specs.Names.{joined};
ghost use Rattle.module_rows.specs.View.{name_at};
ghost use Rattle.net_instances.specs.Instances.{AreInstances};
ghost use Rattle.net_sizes.specs.declared.sizes.Counts.{Counts};
ghost use Rattle.net_bits.specs.Standing.{AreNamesUp};

use module_rows::Modules;
use net_instances::{InstanceRow, Instances};
use pw_defs::{Bytes, List, Memory};
use std::alloc::Global;

/// The symbols of the names of an instance and of those that it is inside, its own first.
fn names_up(alloc: Global, rows: &List<InstanceRow>, n: u32) -> Result<Vec<u32>, Memory>
    ensures { IfOk result (λ names. AreNamesUp rows.now n names.items) }
{
    let mut names = Vec::new(alloc);
    let mut at = n;
    while at > 0 {
        let Some(row) = rows.get(at) else {
            return Err(Memory);
        };
        if row.parent >= at {
            return Err(Memory);
        }
        names.push(row.name)?;
        at = row.parent;
    }
    Ok(names)
}

/// The spelling of a symbol; past the end it is empty.
fn spelling(modules: &Modules, symbol: u32) -> &[u8]
    ensures { result.now ≡ name_at modules.now.symbols symbol }
{
    if symbol < modules.symbols() {
        modules.spelling(symbol)
    } else {
        &[]
    }
}

/// Appends the slash between a path, which was appended since the text had `from` bytes, and what stands under it.
pub(crate) fn put_slash(from: u32, out: &mut Bytes) -> Result<(), Memory>
    ensures { OnOk result ((front path name : List ℕ) → out.old ≡ front ++ path → length front ≡ from → out.new ++ name ≡ front ++ joined path name) }
{
    if out.len() != from {
        out.put(b"/")?;
    }
    Ok(())
}

/// Joins a name to the path that was appended since the text had `from` bytes.
fn put_under(from: u32, name: &[u8], out: &mut Bytes) -> Result<(), Memory>
    ensures { OnOk result ((front path : List ℕ) → out.old ≡ front ++ path → length front ≡ from → out.new ≡ front ++ joined path name.now) }
{
    put_slash(from, out)?;
    out.put(name)?;
    Ok(())
}

/// Appends the path whose names have these symbols, the last one first.
fn put_names(modules: &Modules, names: &[u32], out: &mut Bytes) -> Result<(), Memory>
    ensures { OnOk result (out.new ≡ out.old ++ path (map (name_at modules.now.symbols) names.now)) }
{
    let from = out.len();
    for done in 0..names.len() {
        let symbol = names[names.len() - 1 - done];
        put_under(from, spelling(modules, symbol), out)?;
    }
    Ok(())
}

/// Appends the path of an instance, by its number.
pub fn put_path(
    alloc: Global,
    modules: &Modules,
    instances: &Instances,
    n: u32,
    out: &mut Bytes,
) -> Result<(), Memory>
    ensures { OnOk result ((s : Sources) → (bits : Counts) → (are : AreInstances s modules.now bits instances.now) → (way : Way) → slice_get (are.ways) n ≡ Some way
        → out.new ≡ out.old ++ path way) }
{
    let names = names_up(alloc, &instances.rows, n)?;
    put_names(modules, names.as_slice(), out)?;
    Ok(())
}
