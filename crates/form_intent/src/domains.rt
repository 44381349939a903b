//! The supply sets and the domains.
ghost use Rattle.std.specs.Prelude.{◌≡◌, ◌≤◌, ◌++◌, Some, map, length, option_map, option_to_list, slice_get, IfOk, OnOk};
ghost use Rattle.std.specs.List.{enumerate_from, filter_map};
ghost use Rattle.list_defs.specs.Members.{same_name};
ghost use Rattle.form_intent.specs.Script.{domain_made, domains_made, set_made, set_names, set_named, set_numbers, sets_made, supply_named};
ghost use Rattle.form_intent.specs.Intent.{domain_with};
ghost use Rattle.form_intent.specs.Sets.{set_at};

use crate::elements::element_number;
use line_forms::CommandLine;
use name_index::NameIndex;
use pw_defs::{Domain, List, Memory, Name, SupplySet};
use std::alloc::{AllocError, Global};

/// The domains that the lines make, with their supply sets, where these are the names of the sets and the supplies.
pub fn domains(
    alloc: Global,
    commands: &[CommandLine],
    instances: &NameIndex,
    set_index: &NameIndex,
    supplies: &NameIndex,
) -> Result<List<Domain>, Memory>
    requires few { length commands.now ≤ 1000000 }
    requires names { set_index.now ≡ set_names commands.now }
    ensures { IfOk result (λ domains. domains ≡ map (domain_with (set_named supplies.now (sets_made commands.now)) instances.now) (domains_made commands.now)) }
{
    let sets = supply_sets(alloc, commands, supplies)?;
    let known = Known {
        instances,
        set_names: set_index,
        sets: sets.as_slice(),
    };
    let domains = domains_with(alloc, commands, known)?;
    Ok(domains)
}

/// The supply sets, and the names of what domains may name.
#[derive(Clone, Copy)]
struct Known<'a> {
    instances: &'a NameIndex,
    set_names: &'a NameIndex,
    sets: &'a [SupplySet],
}

/// The sets that the lines make, by the numbers of their supplies.
fn supply_sets(
    alloc: Global,
    commands: &[CommandLine],
    supplies: &NameIndex,
) -> Result<Vec<SupplySet>, AllocError>
    ensures { IfOk result (λ sets. sets.items ≡ map (set_numbers supplies.now) (sets_made commands.now)) }
{
    let mut sets = Vec::new(alloc);
    for command in commands {
        put_set(command, supplies, &mut sets)?;
    }
    Ok(sets)
}

/// Adds the set that a line makes.
fn put_set(
    command: &CommandLine,
    supplies: &NameIndex,
    sets: &mut Vec<SupplySet>,
) -> Result<(), AllocError>
    ensures { OnOk result (sets.new.items ≡ sets.old.items ++ map (set_numbers supplies.now) (option_to_list (set_made command.now))) }
{
    match command {
        CommandLine::SupplySet { power, ground, .. } => {
            sets.push(SupplySet {
                power: supply_named(supplies, power),
                ground: ground_named(supplies, ground),
            })?;
            Ok(())
        }
        CommandLine::SupplyNet { .. }
        | CommandLine::SupplyState { .. }
        | CommandLine::Domain { .. } => Ok(()),
    }
}

fn supply_named(supplies: &NameIndex, name: &Name) -> u32
    ensures { result ≡ supply_named supplies.now name.now }
{
    supplies.find(name.as_slice()).unwrap_or(0)
}

fn ground_named(supplies: &NameIndex, name: &Option<Name>) -> Option<u32>
    ensures { result ≡ option_map (supply_named supplies.now) name.now }
{
    match name {
        None => None,
        Some(name) => Some(supply_named(supplies, name)),
    }
}

/// The domains that the lines make.
fn domains_with(
    alloc: Global,
    commands: &[CommandLine],
    known: Known<'_>,
) -> Result<List<Domain>, AllocError>
    requires { length commands.now ≤ 1000000 }
    ensures { IfOk result (λ domains. domains ≡ map (domain_with (set_at known.entry.set_names.now known.entry.sets.now) known.entry.instances.now) (domains_made commands.now)) }
{
    let mut domains = List::new(alloc);
    for (place, command) in commands.iter().enumerate() {
        put_domain(alloc, place as u32 + 1, command, known, &mut domains)?;
    }
    Ok(domains)
}

/// Adds the domain that a line makes.
fn put_domain(
    alloc: Global,
    line: u32,
    command: &CommandLine,
    known: Known<'_>,
    domains: &mut List<Domain>,
) -> Result<(), AllocError>
    ensures { OnOk result (domains.new ≡ domains.old ++ map (domain_with (set_at known.entry.set_names.now known.entry.sets.now) known.entry.instances.now) (option_to_list (domain_made (line, command.now)))) }
{
    match command {
        CommandLine::Domain {
            domain,
            element,
            primary,
        } => {
            let elements = one_or_none(alloc, element_number(known.instances, element))?;
            domains.push(Domain {
                name: domain.clone()?,
                unit: 0,
                line,
                elements,
                excluded: List::new(alloc),
                primary: set_at(known.set_names, known.sets, primary),
                default_iso: None,
            })
        }
        CommandLine::SupplyNet { .. }
        | CommandLine::SupplyState { .. }
        | CommandLine::SupplySet { .. } => Ok(()),
    }
}

fn one_or_none(alloc: Global, element: Option<u32>) -> Result<List<u32>, AllocError>
    ensures { IfOk result (λ elements. elements ≡ option_to_list element) }
{
    let mut elements = List::new(alloc);
    match element {
        Some(element) => {
            elements.push(element)?;
            Ok(elements)
        }
        None => Ok(elements),
    }
}

/// The set at the place of a name.
fn set_at(names: &NameIndex, sets: &[SupplySet], name: &Name) -> SupplySet
    ensures { result ≡ set_at names.now sets.now name.now }
{
    let none = SupplySet {
        power: 0,
        ground: None,
    };
    match names.find(name.as_slice()) {
        Some(place) => sets.get(place as usize).copied().unwrap_or(none),
        None => none,
    }
}
