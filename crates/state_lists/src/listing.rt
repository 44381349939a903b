//! All legal states of an order of supplies, in rising order.
ghost use Rattle.std.specs.Prelude.{◌≡◌, ◌<◌, ◌↔◌, true, min, length, All, IfOk, Err, List as ListOf, map, slice_index_or, IfErr, []};
ghost use Rattle.pw_defs.specs.Values.{value_cmp};
ghost use Rattle.pw_defs.specs.declared.values.Value.{Value};
ghost use Rattle.list_defs.specs.Members.{IsIn};
ghost use Rattle.list_defs.specs.Orders.{IsRising};
ghost use Rattle.pw_defs.specs.Values.{state_cmp};
ghost use Rattle.supply_defs.specs.Conditions.{speaks_below};
ghost use Rattle.supply_defs.specs.States.{IsLegal, all_states, legal_states, state_count};
ghost use Rattle.state_lists.specs.Least.{FirstIsLeast};

use crate::evaluation::all_hold;
use pw_defs::{Cond, List, ListFault, State, Value};
use std::alloc::Global;

/// How many states are gone through at most.
const MAX_STATES: usize = 65_536;

/// All states in which all of the conditions hold, in order. A state gives each supply one value of its list.
///
/// `Bound` comes where the lists make more than 65,536 states, legal or not, and `Memory` where memory runs out.
pub fn legal(alloc: Global, lists: &[List<Value>], conds: &[Cond]) -> Result<List<State>, ListFault>
    // The conditions speak of supplies that have a list.
    requires { All (λ cond. speaks_below (length lists.now) cond ≡ true) conds.now }

    ensures states { IfOk result (λ states. map (λ state. state.values) states ≡ legal_states lists.now conds.now) }
    ensures bound { (result ≡ Err ListFault.Bound) ↔ (65536 < state_count lists.now) }

    // They are the states that give each supply one of its values and in which the conditions hold.
    ensures legal { IfOk result (λ states. (state : ListOf Value) →
        IsIn state (map (λ s. s.values) states) ↔ IsLegal lists.now conds.now state) }

    // In rising order, so the first state that shows something is the least one.
    ensures order { IfOk result (λ states. All (IsRising value_cmp) lists.now →
        IsRising state_cmp (map (λ state. state.values) states)) }
{
    let count = count_states(lists);
    if count > MAX_STATES {
        return Err(ListFault::Bound);
    }
    let mut states = List::new(alloc);
    for number in 0..count {
        let values = state_at(alloc, lists, count, number)?;
        if all_hold(conds, values.as_slice()) {
            states.push(State { values })?;
        }
    }
    Ok(states)
}

/// How many states there are, or one more than the bound where there are more.
fn count_states(lists: &[List<Value>]) -> usize
    ensures { result ≡ min (state_count lists.now) 65537 }
{
    let mut count = 1;
    for list in lists {
        count = (count * list.len() as usize).min(MAX_STATES + 1);
    }
    count
}

/// The state of a number, where `count` is how many there are.
fn state_at(
    alloc: Global,
    lists: &[List<Value>],
    count: usize,
    number: usize,
) -> Result<List<Value>, ListFault>
    requires all { count ≡ state_count lists.now }
    requires within { number < count }
    ensures value { IfOk result (λ values. values ≡ slice_index_or (all_states lists.now) number []) }
    ensures length { IfOk result (λ values. length values ≡ length lists.now) }
    ensures cause { IfErr result (λ e. e ≡ ListFault.Memory) }
{
    let mut values = Vec::with_capacity(alloc, lists.len())?;
    // How many states there are of the lists that are left, and which of them it is.
    let mut block = count;
    let mut rest = number;
    for list in lists {
        let list = list.as_slice();
        block /= list.len();
        values.push(list[rest / block])?;
        rest %= block;
    }
    List::from_vec(values).ok_or(ListFault::Memory)
}

/// Among states in rising order the first in which a condition holds is the least of those in which it does.
pub fn first_is_least()
    ensures { FirstIsLeast }
{}
