//! Conditions of expressions, part by part.
ghost use Rattle.std.specs.Prelude.{◌≡◌, ◌∷◌, ◌++◌, [], Ok, Some, true, IfOk, IfErr, OnOk, IsSome};
ghost use Rattle.power_states.specs.TermMeaning.{EachMeans, Means, state_of, supply_of};
ghost use Rattle.state_conditions.specs.Functions.{has_functions};
ghost use Rattle.std.specs.List.{list_all};
ghost use Rattle.state_conditions.specs.Keys.{AreFound};
ghost use Rattle.state_conditions.specs.Faults.{HasFault, HasFaultAmong, HasNoState};

use crate::named::{Found, first, found_in};
use pw_defs::{Boxed, Cond, List, Memory, Name, Term, TermFault, TermNames, copy_cond};
use std::alloc::Global;

/// The supply of a function, which there is.
fn function(names: &TermNames, power: bool) -> u32
    requires { IsSome (supply_of names.now power) }
    ensures { supply_of names.now power ≡ Some result }
{
    if power {
        names.power.unwrap()
    } else {
        names.ground.unwrap()
    }
}

/// The fault of a state that isn't there.
fn absent(alloc: Global, state: &[u8]) -> TermFault
    ensures { HasNoState state.now result }
{
    match Name::from_slice(alloc, state) {
        Ok(name) => TermFault::U9(name),
        Err(_) => TermFault::Memory,
    }
}

/// The condition of an object's state.
fn state_condition(
    alloc: Global,
    found: &Found,
    names: &TermNames,
    object: &Name,
    state: &Name,
) -> Result<Cond, TermFault>
    requires { AreFound names.now.states found.now }
    ensures ok { IfOk result (λ cond. Means names.now (Term.Is object.now state.now) (Ok cond)) }
    ensures cause { IfErr result (HasFault names.now (Term.Is object.now state.now)) }
{
    let Some(number) = first(alloc, found, object.as_slice(), state.as_slice())? else {
        return Err(absent(alloc, state.as_slice()));
    };
    let Some(named) = names.states.get(number) else {
        return Err(TermFault::Memory);
    };
    let _limit = named.object.as_slice();
    let cond = copy_cond(alloc, &named.cond)?;
    Ok(cond)
}

fn opposite(alloc: Global, cond: Cond) -> Result<Cond, Memory>
    ensures { IfOk result (λ opposite. opposite ≡ Cond.Not cond) }
{
    Ok(Cond::Not(Boxed::new(alloc, cond)?))
}

fn put(conds: &mut List<Cond>, cond: Cond) -> Result<(), Memory>
    ensures { OnOk result (conds.new ≡ conds.old ++ cond ∷ []) }
{
    conds.push(cond)?;
    Ok(())
}

/// The condition of a term, once the states are found by their names.
#[cycle(conditions)]
#[tactic(auto, using(crate::proofs::FunctionLemmas::naming))]
fn condition(
    alloc: Global,
    found: &Found,
    names: &TermNames,
    term: &Term,
) -> Result<Cond, TermFault>
    requires found { AreFound names.now.states found.now }
    requires functions { has_functions names.now term.now ≡ true }
    ensures ok { IfOk result (λ cond. Means names.now term.now (Ok cond)) }
    ensures cause { IfErr result (HasFault names.now term.now) }
{
    match term {
        Term::Is { left, state } => state_condition(alloc, found, names, left, state),
        Term::Volt { power, value } => Ok(Cond::Is {
            supply: function(names, *power),
            value: *value,
        }),
        Term::On { power } => Ok(Cond::On {
            supply: function(names, *power),
        }),
        Term::Not(part) => {
            let cond = condition(alloc, found, names, part.get())?;
            let opposite = opposite(alloc, cond)?;
            Ok(opposite)
        }
        Term::All(parts) => {
            let conds = conditions(alloc, found, names, parts.as_slice())?;
            Ok(Cond::All(conds))
        }
        Term::Any(parts) => {
            let conds = conditions(alloc, found, names, parts.as_slice())?;
            Ok(Cond::Any(conds))
        }
    }
}

/// The conditions of terms, in their order.
#[cycle(conditions)]
fn conditions(
    alloc: Global,
    found: &Found,
    names: &TermNames,
    terms: &[Term],
) -> Result<List<Cond>, TermFault>
    requires found { AreFound names.now.states found.now }
    requires functions { list_all (has_functions names.now) terms.now ≡ true }
    ensures ok { IfOk result (λ conds. EachMeans names.now terms.now (Ok conds)) }
    ensures cause { IfErr result (HasFaultAmong names.now terms.now) }
{
    let mut conds = List::new(alloc);
    for term in terms {
        let cond = condition(alloc, found, names, term)?;
        put(&mut conds, cond)?;
    }
    Ok(conds)
}

/// The condition that an expression stands for. Where two states have the same names, the first counts.
///
/// Each function that the term names has a supply. Errors: `U9` with the first state of the term that isn't among the
/// names; `Memory`, which conditions of states that name states, again and again, soon come to. It goes as deep as the term,
/// and those that are read are at most some 200 deep.
pub fn constraint_of(alloc: Global, term: &Term, names: &TermNames) -> Result<Cond, TermFault>
    requires { has_functions names.now term.now ≡ true }
    ensures ok { IfOk result (λ cond. Means names.now term.now (Ok cond)) }
    ensures cause { IfErr result (HasFault names.now term.now) }
{
    let found = found_in(alloc, &names.states)?;
    condition(alloc, &found, names, term)
}
