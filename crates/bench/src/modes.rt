//! Tables of modes, each of which gives each supply a value.

ghost use Rattle.std.specs.Prelude.{◌≡◌, ◌≤◌, true, IfOk};
ghost use Rattle.std.specs.List.{list_all};
ghost use Rattle.supply_defs.specs.Conditions.{speaks_below};

use crate::MAX_NODES;
use crate::joined::{alike, supplies};
use pw_defs::{Cond, DiagFault, List, Value};
use state_build::build;
use state_diagrams::Pool;
use std::alloc::{AllocError, Global};

/// How many nodes a table has once the states of some modes are found, where the supplies of each pair are joined by a
/// condition as well.
pub fn mode_nodes(alloc: Global, roots: u32, modes: u32) -> Result<u32, DiagFault>
    requires { roots ≤ 1024 }
{
    let lists = supplies(alloc, roots)?;
    let arities = Vec::from_elem(alloc, 2, roots as usize)?;
    let mut pool = Pool::new(alloc, arities.as_slice(), MAX_NODES)?;
    let cond = table_cond(alloc, roots, modes)?;
    build(&mut pool, lists.as_slice(), &cond)?;
    Ok(pool.nodes())
}

/// The supplies have the values of one of the modes, and the two of each pair are both on or both off.
#[tactic(auto, using(supply_defs::proofs::Meaning::speaking))]
fn table_cond(alloc: Global, roots: u32, modes: u32) -> Result<Cond, AllocError>
    ensures { IfOk result (λ cond. speaks_below roots cond ≡ true) }
{
    let rows = Cond::Any(mode_conds(alloc, roots, modes)?);
    let mut conds = pair_conds(alloc, roots)?;
    conds.push(rows)?;
    Ok(Cond::All(conds))
}

/// The supplies of each pair are both on, or none is.
fn pair_conds(alloc: Global, roots: u32) -> Result<List<Cond>, AllocError>
    ensures { IfOk result (λ conds. list_all (speaks_below roots) conds ≡ true) }
{
    let mut conds = List::new(alloc);
    for at in 1..roots {
        if at % 2 == 1 {
            conds.push(alike(alloc, at - 1, at)?)?;
        }
    }
    Ok(conds)
}

/// The conditions of all modes.
fn mode_conds(alloc: Global, roots: u32, modes: u32) -> Result<List<Cond>, AllocError>
    ensures { IfOk result (λ conds. list_all (speaks_below roots) conds ≡ true) }
{
    let mut conds = List::new(alloc);
    for mode in 0..modes {
        let cond = mode_cond(alloc, roots, mode)?;
        conds.push(cond)?;
    }
    Ok(conds)
}

/// Each supply has its value in a mode.
#[tactic(auto, using(supply_defs::proofs::Meaning::speaking))]
fn mode_cond(alloc: Global, roots: u32, mode: u32) -> Result<Cond, AllocError>
    ensures { IfOk result (λ cond. speaks_below roots cond ≡ true) }
{
    let mut conds = List::new(alloc);
    for supply in 0..roots {
        let value = value_in(mode, supply);
        conds.push(Cond::Is { supply, value })?;
    }
    Ok(Cond::All(conds))
}

/// The value of a supply in a mode, which looks random. The two supplies of a pair have the same one.
fn value_in(mode: u32, supply: u32) -> Value {
    let mixed = (mode ^ (supply / 2).wrapping_mul(2_654_435_769)).wrapping_mul(2_246_822_507);
    let mixed = (mixed ^ (mixed >> 13)).wrapping_mul(3_266_489_909);
    if (mixed >> 16) % 2 == 0 {
        Value::Off
    } else {
        Value::On(0)
    }
}
