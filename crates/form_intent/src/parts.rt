//! What the lines make and state, where the script is of the form.
ghost use Rattle.std.specs.Prelude.{◌≡◌, ◌&&◌, true, false, length, nat_le, IfOk, MatchOption};
ghost use Rattle.list_defs.specs.Members.{all_differ, same_name};
ghost use Rattle.form_intent.specs.Script.{nets_made, set_names};
ghost use Rattle.form_intent.specs.Fits.{names_fit, script_fits};

use crate::elements::elements_of;
use crate::lists::root_lists;
use crate::made::Made;
use crate::states::stated_values;
use crate::supplies::{SupplyOrder, supply_order};
use indexmap::IndexSet;
use line_forms::CommandLine;
use name_index::NameIndex;
use pw_defs::{List, Memory, RootList, Value};
use std::alloc::Global;

/// How many lines a script has at most.
const MAX_LINES: usize = 1_000_000;

/// How many nets a script makes at most.
const MAX_NETS: u32 = 1_024;

/// The names of the sets, the nets in order and the values that are stated on each of them, and the elements of the
/// domains.
#[derive(Drop)]
pub struct Parts {
    pub set_names: NameIndex,
    pub order: SupplyOrder,
    pub stated: Vec<Vec<Value>>,
    pub elements: IndexSet<u32>,
}

impl Parts {
    ghost use Rattle.form_intent.specs.Parts.{ArePartsOf};

    /// The parts of a script with the list of values of each supply, or `None` exactly where it is not of the form.
    pub fn by_lines(
        alloc: Global,
        commands: &[CommandLine],
        instances: &NameIndex,
    ) -> Result<Option<(Parts, List<RootList>)>, Memory>
        ensures { IfOk result (λ parts. MatchOption parts
            (script_fits instances.now commands.now ≡ false)
            (λ parts. (script_fits instances.now commands.now ≡ true) × ArePartsOf instances.now commands.now parts.0 parts.1)) }
    {
        if commands.len() > MAX_LINES {
            return Ok(None);
        }
        let set_names = match set_names(alloc, commands, instances)? {
            Some(set_names) => set_names,
            None => return Ok(None),
        };
        let order = supply_order(alloc, commands)?;
        let stated = match stated_values(alloc, commands, &order.index)? {
            Some(stated) => stated,
            None => return Ok(None),
        };
        let lists = match root_lists(alloc, stated.as_slice())? {
            Some(lists) => lists,
            None => return Ok(None),
        };
        let elements = match elements_of(alloc, commands, instances)? {
            Some(elements) => elements,
            None => return Ok(None),
        };
        let parts = Parts {
            set_names,
            order,
            stated,
            elements,
        };
        Ok(Some((parts, lists)))
    }
}

/// The names of the sets that the lines make, or `None` exactly where the names of lines or the count of nets do not
/// fit. The names of the nets then differ.
fn set_names(
    alloc: Global,
    commands: &[CommandLine],
    instances: &NameIndex,
) -> Result<Option<NameIndex>, Memory>
    ensures { IfOk result (λ names. MatchOption names
        ((names_fit instances.now commands.now && nat_le (length (nets_made commands.now)) 1024) ≡ false)
        (λ names. (names_fit instances.now commands.now ≡ true) × (nat_le (length (nets_made commands.now)) 1024 ≡ true) × (names ≡ set_names commands.now) × (all_differ same_name (nets_made commands.now) ≡ true))) }
{
    match Made::by_lines(alloc, commands, instances)? {
        Some(made) => {
            let Made {
                nets,
                sets,
                domains: _,
            } = made;
            if nets.len() > MAX_NETS {
                return Ok(None);
            }
            Ok(Some(sets))
        }
        None => Ok(None),
    }
}
