//! The elements of the domains, and the domain of each instance.
ghost use Rattle.std.specs.Prelude.{◌≡◌, ◌++◌, ◌<◌, ◌^◌, true, false, not, length, map, option_to_list, unwrap_or, ◌==◌, IfOk, MatchBool, MatchOption};
ghost use Rattle.std.specs.List.{enumerate_from};
ghost use Rattle.list_defs.specs.Members.{place_of};
ghost use Rattle.form_intent.specs.Fits.{element_number, elements, elements_fit};
ghost use Rattle.form_intent.specs.Intent.{anchor, domain_for};
ghost use Rattle.form_intent.specs.Elements.{is_among, line_element};

use indexmap::IndexSet;
use line_forms::CommandLine;
use name_index::NameIndex;
use pw_defs::{List, Memory, Name};
use std::alloc::{AllocError, Global};

/// The elements of the domains, in order, or `None` exactly where two are the same or none is the top.
pub fn elements_of(
    alloc: Global,
    commands: &[CommandLine],
    instances: &NameIndex,
) -> Result<Option<IndexSet<u32>>, Memory>
    ensures { IfOk result (λ found. MatchOption found
        (elements_fit (elements instances.now commands.now) ≡ false)
        (λ found. (elements_fit (elements instances.now commands.now) ≡ true) × (found.keys ≡ elements instances.now commands.now))) }
{
    let mut elements = IndexSet::new(alloc);
    for command in commands {
        if !put_element(command, instances, &mut elements)? {
            return Ok(None);
        }
    }
    if !elements.contains(&0) {
        return Ok(None);
    }
    Ok(Some(elements))
}

/// Adds the element of the domain that a line makes. The answer is `false` where it is there already.
fn put_element(
    command: &CommandLine,
    instances: &NameIndex,
    elements: &mut IndexSet<u32>,
) -> Result<bool, AllocError>
    ensures new { IfOk result (λ new. new ≡ not (is_among elements.old.keys (line_element instances.now command.now))) }
    ensures gains { IfOk result (λ new. MatchBool new
        (elements.new.keys ≡ elements.old.keys ++ option_to_list (line_element instances.now command.now))
        (elements.new.keys ≡ elements.old.keys)) }
{
    match command {
        CommandLine::Domain { element, .. } => match element_number(instances, element) {
            Some(element) => {
                let new = elements.insert(element)?;
                Ok(new)
            }
            None => Ok(true),
        },
        CommandLine::SupplyNet { .. }
        | CommandLine::SupplyState { .. }
        | CommandLine::SupplySet { .. } => Ok(true),
    }
}

/// The number of an instance of the top, from 1, or 0 for the top.
pub fn element_number(instances: &NameIndex, element: &Option<Name>) -> Option<u32>
    ensures { result ≡ element_number instances.now element.now }
{
    match element {
        None => Some(0),
        Some(name) => {
            let _count = instances.len();
            let place = instances.find(name.as_slice())?;
            Some(place + 1)
        }
    }
}

/// The domain of each instance: that of the instance of the top in which it stands, or else the top's.
pub fn domain_of(
    alloc: Global,
    elements: &IndexSet<u32>,
    parents: &[Option<u32>],
) -> Result<List<u32>, Memory>
    requires { length elements.now.keys < 2 ^ 32 }
    ensures { IfOk result (λ domains. domains ≡ map (domain_for elements.now.keys) (enumerate_from 0 parents.now)) }
{
    let top = place_of(elements, 0).unwrap_or(0);
    let mut domains = List::new(alloc);
    for parent in parents {
        let inst = domains.len();
        domains.push(domain_for(elements, top, inst, *parent))?;
    }
    Ok(domains)
}

/// The domain of an instance, where `top` is the top's.
fn domain_for(elements: &IndexSet<u32>, top: u32, inst: u32, parent: Option<u32>) -> u32
    requires few { length elements.now.keys < 2 ^ 32 }
    requires top { top ≡ unwrap_or (place_of (◌==◌ 0) elements.now.keys) 0 }
    ensures { result ≡ domain_for elements.now.keys (inst, parent) }
{
    place_of(elements, anchor(inst, parent)).unwrap_or(top)
}

/// The instance of the top in which an instance stands, which may be itself.
fn anchor(inst: u32, parent: Option<u32>) -> u32
    ensures { result ≡ anchor inst parent }
{
    match parent {
        None | Some(0) => inst,
        Some(parent) => parent,
    }
}

fn place_of(elements: &IndexSet<u32>, element: u32) -> Option<u32>
    requires { length elements.now.keys < 2 ^ 32 }
    ensures { result ≡ place_of (◌==◌ element) elements.now.keys }
{
    let place = elements.get_index_of(&element)?;
    Some(place as u32)
}
