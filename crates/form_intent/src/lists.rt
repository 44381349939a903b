//! The supplies with their values and conditions, of the values that are stated on them.
ghost use Rattle.std.specs.Prelude.{◌≡◌, ◌≤◌, true, false, length, map, nat_le, zip, IfOk, MatchOption};
ghost use Rattle.std.specs.List.{enumerate_from, filter_map, list_all};
ghost use Rattle.form_intent.specs.Script.{cond_with, list_with, supply_with, values_of};

use crate::values::values_of;
use pw_defs::{Cond, List, Memory, Name, RootList, Said, Supply, SupplyKind, UnitCond, Value};
use std::alloc::{AllocError, Global};

/// The supplies of these names, in order, with the values that are stated on each.
pub fn supplies(
    alloc: Global,
    names: &[Name],
    stated: &[Vec<Value>],
) -> Result<List<Supply>, Memory>
    requires { length names.now ≡ length stated.now }
    ensures { IfOk result (λ supplies. supplies ≡ map (λ s. supply_with s.0 s.1) (zip names.now (map (λ values. values.items) stated.now))) }
{
    let mut supplies = List::new(alloc);
    for (place, name) in names.iter().enumerate() {
        supplies.push(supply(alloc, name, stated[place].as_slice())?)?;
    }
    Ok(supplies)
}

fn supply(alloc: Global, name: &Name, values: &[Value]) -> Result<Supply, AllocError>
    ensures { IfOk result (λ supply. supply ≡ supply_with name.now values.now) }
{
    Ok(Supply {
        name: name.clone()?,
        unit: 0,
        kind: SupplyKind::Net,
        feeder: None,
        inputs: List::new(alloc),
        said: said(alloc, values)?,
    })
}

fn said(alloc: Global, values: &[Value]) -> Result<List<Said>, AllocError>
    ensures { IfOk result (λ said. said ≡ map (λ v. record { unit = 0; value = v }) values.now) }
{
    let mut said = List::new(alloc);
    for value in values {
        said.push(Said {
            unit: 0,
            value: *value,
        })?;
    }
    Ok(said)
}

/// The list of values of each supply, or `None` exactly where a supply has more than 64.
pub fn root_lists(alloc: Global, stated: &[Vec<Value>]) -> Result<Option<List<RootList>>, Memory>
    ensures { IfOk result (λ lists. MatchOption lists
        (list_all (λ values. nat_le (length (values_of values.items)) 64) stated.now ≡ false)
        (λ lists. (list_all (λ values. nat_le (length (values_of values.items)) 64) stated.now ≡ true)
        × (lists ≡ map list_with (enumerate_from 0 (map (λ values. values.items) stated.now))))) }
{
    let mut lists = List::new(alloc);
    for values in stated {
        let root = lists.len();
        match values_of(alloc, values.as_slice())? {
            Some(values) => lists.push(RootList {
                unit: 0,
                root,
                values,
            })?,
            None => return Ok(None),
        }
    }
    Ok(Some(lists))
}

/// The conditions that a supply on which values are stated has one of them.
pub fn conds(alloc: Global, stated: &[Vec<Value>]) -> Result<List<UnitCond>, Memory>
    requires { length stated.now ≤ 4294967295 }
    ensures { IfOk result (λ conds. conds ≡ filter_map cond_with (enumerate_from 0 (map (λ values. values.items) stated.now))) }
{
    let mut conds = List::new(alloc);
    for (supply, values) in stated.iter().enumerate() {
        match cond_of(alloc, supply as u32, values.as_slice())? {
            Some(cond) => conds.push(cond)?,
            None => {}
        }
    }
    Ok(conds)
}

fn cond_of(alloc: Global, supply: u32, values: &[Value]) -> Result<Option<UnitCond>, AllocError>
    ensures { IfOk result (λ cond. cond ≡ cond_with (supply, values.now)) }
{
    if values.is_empty() {
        return Ok(None);
    }
    let mut parts = List::new(alloc);
    for value in values {
        parts.push(Cond::Is {
            supply,
            value: *value,
        })?;
    }
    Ok(Some(UnitCond {
        unit: 0,
        cond: Cond::Any(parts),
    }))
}
