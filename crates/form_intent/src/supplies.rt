//! The supply nets, in order of their names.
ghost use Rattle.std.specs.Prelude.{◌≡◌, ◌++◌, true, map, option_to_list, IfOk, OnOk};
ghost use Rattle.list_defs.specs.Members.{all_differ, same_name};
ghost use Rattle.list_defs.specs.Orders.{IsPutInOrder, name_cmp};
ghost use Rattle.form_intent.specs.Script.{net_made, nets_made};

use line_forms::CommandLine;
use name_index::NameIndex;
use pw_defs::{Memory, Name};
use std::alloc::{AllocError, Global};

/// The names of the nets in order, and an index of them.
#[derive(Drop)]
pub struct SupplyOrder {
    pub names: Vec<Name>,
    pub index: NameIndex,
}

/// The nets that the lines make, in order of their names.
pub fn supply_order(alloc: Global, commands: &[CommandLine]) -> Result<SupplyOrder, Memory>
    requires { all_differ same_name (nets_made commands.now) ≡ true }
    ensures order { IfOk result (λ supplies. IsPutInOrder name_cmp (nets_made commands.now) supplies.names.items) }
    ensures index { IfOk result (λ supplies. supplies.index ≡ supplies.names.items) }
{
    let mut names = net_names(alloc, commands)?;
    names.sort()?;
    let index = index_of(alloc, names.as_slice())?;
    Ok(SupplyOrder { names, index })
}

/// The names of the nets, as they are made.
fn net_names(alloc: Global, commands: &[CommandLine]) -> Result<Vec<Name>, AllocError>
    ensures { IfOk result (λ names. names.items ≡ nets_made commands.now) }
{
    let mut names = Vec::new(alloc);
    for command in commands {
        put_net(command, &mut names)?;
    }
    Ok(names)
}

/// Adds the name of the net that a line makes.
fn put_net(command: &CommandLine, names: &mut Vec<Name>) -> Result<(), AllocError>
    ensures { OnOk result (names.new.items ≡ names.old.items ++ option_to_list (net_made command.now)) }
{
    match command {
        CommandLine::SupplyNet { net } => {
            names.push(net.clone()?)?;
            Ok(())
        }
        CommandLine::SupplyState { .. }
        | CommandLine::SupplySet { .. }
        | CommandLine::Domain { .. } => Ok(()),
    }
}

/// An index of names of which no two are the same.
fn index_of(alloc: Global, names: &[Name]) -> Result<NameIndex, AllocError>
    requires { all_differ same_name names.now ≡ true }
    ensures { IfOk result (λ index. index ≡ names.now) }
{
    let spelled = spelled(alloc, names)?;
    let index = NameIndex::from_names(alloc, spelled.as_slice())?;
    Ok(index.unwrap())
}

/// The bytes of each name.
fn spelled(alloc: Global, names: &[Name]) -> Result<Vec<&[u8]>, AllocError>
    ensures { IfOk result (λ spelled. map (λ name. name.now) spelled.items ≡ names.now) }
{
    let mut spelled = Vec::new(alloc);
    for name in names {
        spelled.push(name.as_slice())?;
    }
    Ok(spelled)
}
