//! The values that the lines state on the supplies.
ghost use Rattle.std.specs.Prelude.{◌≡◌, ◌++◌, ℕ, List, true, false, length, map, IfOk, OnOk, MatchOption};
ghost use Rattle.std.specs.List.{list_all};
ghost use Rattle.line_forms.specs.declared.script_lines.StateWords.{StateWords};
ghost use Rattle.list_defs.specs.Members.{all_differ, same_name};
ghost use Rattle.form_intent.specs.Script.{stated, states_of, states_on};
ghost use Rattle.form_intent.specs.Fits.{states_differ};

use line_forms::{CommandLine, StateWords};
use name_index::NameIndex;
use pw_defs::{Memory, Value};
use std::alloc::{AllocError, Global};

/// The values that are stated on each supply, or `None` exactly where a state of a supply is stated twice.
pub fn stated_values(
    alloc: Global,
    commands: &[CommandLine],
    supplies: &NameIndex,
) -> Result<Option<Vec<Vec<Value>>>, Memory>
    ensures { IfOk result (λ values. MatchOption values
        (list_all (states_differ commands.now) supplies.now ≡ false)
        (λ values. (list_all (states_differ commands.now) supplies.now ≡ true)
        × (map (λ of_one. of_one.items) values.items ≡ map (stated commands.now) supplies.now))) }
{
    let groups = states_by_supply(alloc, commands, supplies)?;
    let mut values = Vec::new(alloc);
    for states in &groups {
        let states = states.as_slice();
        if !names_differ(alloc, states)? {
            return Ok(None);
        }
        values.push(values_in(alloc, states)?)?;
    }
    Ok(Some(values))
}

/// The states of each supply.
fn states_by_supply<'a>(
    alloc: Global,
    commands: &'a [CommandLine],
    supplies: &NameIndex,
) -> Result<Vec<Vec<&'a StateWords>>, AllocError>
    ensures { IfOk result (λ groups. map (λ states. map (λ state. state.now) states.items) groups.items ≡ map (states_of commands.now) supplies.now) }
{
    let mut groups = Vec::new(alloc);
    for _ in 0..supplies.len() {
        groups.push(Vec::new(alloc))?;
    }
    for command in commands {
        put_states(command, supplies, groups.as_mut_slice())?;
    }
    Ok(groups)
}

/// Adds the states of a line to those of its supply.
fn put_states<'a>(
    command: &'a CommandLine,
    supplies: &NameIndex,
    groups: &mut [Vec<&'a StateWords>],
) -> Result<(), AllocError>
    requires differ { all_differ same_name supplies.now ≡ true }
    requires groups { length groups.old ≡ length supplies.now }
    ensures { OnOk result ((so_far : List ℕ → List StateWords) → map (λ states. map (λ state. state.now) states.items) groups.old ≡ map so_far supplies.now
        → map (λ states. map (λ state. state.now) states.items) groups.new ≡ map (λ net. so_far net ++ states_on net command.now) supplies.now) }
{
    match command {
        CommandLine::SupplyState { net, states } => match supplies.find(net.as_slice()) {
            Some(supply) => {
                put_all(states.as_slice(), &mut groups[supply as usize])?;
                Ok(())
            }
            None => Ok(()),
        },
        CommandLine::SupplyNet { .. }
        | CommandLine::SupplySet { .. }
        | CommandLine::Domain { .. } => Ok(()),
    }
}

fn put_all<'a>(states: &'a [StateWords], group: &mut Vec<&'a StateWords>) -> Result<(), AllocError>
    ensures { OnOk result (map (λ state. state.now) group.new.items ≡ map (λ state. state.now) group.old.items ++ states.now) }
{
    for state in states {
        group.push(state)?;
    }
    Ok(())
}

/// Whether no two of the states have one name.
fn names_differ(alloc: Global, states: &[&StateWords]) -> Result<bool, AllocError>
    ensures { IfOk result (λ differ. differ ≡ all_differ same_name (map (λ state. state.now.name) states.now)) }
{
    let mut names: Vec<&[u8]> = Vec::new(alloc);
    for state in states {
        names.push(state.name.as_slice())?;
    }
    let index = NameIndex::from_names(alloc, names.as_slice())?;
    Ok(index.is_some())
}

fn values_in(alloc: Global, states: &[&StateWords]) -> Result<Vec<Value>, AllocError>
    ensures { IfOk result (λ values. values.items ≡ map (λ state. state.now.value) states.now) }
{
    states.iter().map(|state| state.value).collect(alloc)
}
