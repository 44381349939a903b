//! The intent that a script means.
ghost use Rattle.std.specs.Prelude.{◌≡◌, [], ◌∷◌, true, false, IfOk, IfSome, MatchOption};
ghost use Rattle.form_intent.specs.Fits.{script_fits};
ghost use Rattle.form_intent.specs.Intent.{IsIntentOf, top_unit};
ghost use Rattle.form_intent.specs.Parts.{ArePartsOf};
ghost use Rattle.form_intent.specs.Sound.{IsSound};

use crate::domains::domains;
use crate::elements::domain_of;
use crate::lists::{conds, supplies};
use crate::parts::Parts;
use line_forms::CommandLine;
use name_index::NameIndex;
use pw_defs::{Intent, List, Memory, RootList, Unit, Want};
use std::alloc::{AllocError, Global};

/// The intent that the commands mean over these instances of the top, or `None` exactly where they are not of the
/// form. `parents` has the parent of each instance of the design, the top first.
pub fn intent_of(
    alloc: Global,
    commands: &[CommandLine],
    instances: &NameIndex,
    parents: &[Option<u32>],
) -> Result<Option<Intent>, Memory>
    ensures intent { IfOk result (λ intent. MatchOption intent
        (script_fits instances.now commands.now ≡ false)
        (λ i. (script_fits instances.now commands.now ≡ true) × IsIntentOf commands.now instances.now parents.now i)) }

    // Each supply has a list of values, which rise, and conditions and domains speak of the supplies alone.
    ensures sound { IfOk result (λ intent. IfSome intent IsSound) }
{
    match Parts::by_lines(alloc, commands, instances)? {
        Some((parts, lists)) => {
            let intent = assemble(alloc, commands, instances, parents, &parts, lists)?;
            Ok(Some(intent))
        }
        None => Ok(None),
    }
}

/// The intent of a script of the form, from its parts.
fn assemble(
    alloc: Global,
    commands: &[CommandLine],
    instances: &NameIndex,
    parents: &[Option<u32>],
    parts: &Parts,
    lists: List<RootList>,
) -> Result<Intent, Memory>
    requires fits { script_fits instances.now commands.now ≡ true }
    requires parts { ArePartsOf instances.now commands.now parts.now lists }
    ensures intent { IfOk result (λ i. IsIntentOf commands.now instances.now parents.now i) }
    ensures sound { IfOk result IsSound }
{
    let stated = parts.stated.as_slice();
    let supplies = supplies(alloc, parts.order.names.as_slice(), stated)?;
    let conds = conds(alloc, stated)?;
    let domains = domains(
        alloc,
        commands,
        instances,
        &parts.set_names,
        &parts.order.index,
    )?;
    let domain_of = domain_of(alloc, &parts.elements, parents)?;
    let units = units(alloc)?;
    Ok(Intent {
        want: Want::Check,
        units,
        supplies,
        lists,
        domains,
        domain_of,
        strategies: List::new(alloc),
        cell_sets: List::new(alloc),
        port_sets: List::new(alloc),
        conds,
    })
}

/// The top alone.
fn units(alloc: Global) -> Result<List<Unit>, AllocError>
    ensures { IfOk result (λ units. units ≡ top_unit ∷ []) }
{
    let mut units = List::new(alloc);
    units.push(Unit {
        inst: 0,
        outer: None,
        passed: 0,
        ports: List::new(alloc),
        exports: List::new(alloc),
    })?;
    Ok(units)
}
