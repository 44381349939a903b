//! Conditions written from their parts on: `on:0 is:1:off all:2`.
ghost use Rattle.std.specs.Prelude.{◌≡◌, length, IfOk, IfSome, true, All};
ghost use Rattle.std.specs.List.{list_all};
ghost use Rattle.supply_defs.specs.Conditions.{speaks_below};

use pw_defs::{Boxed, Cond, List, Value};
use std::alloc::{AllocError, Global};

/// The condition that the words write.
pub fn condition_of(alloc: Global, words: &[&str]) -> Result<Option<Cond>, AllocError> {
    let mut parts = Vec::new(alloc);
    for word in words {
        let Some(cond) = next_of(alloc, &mut parts, *word)? else {
            return Ok(None);
        };
        parts.push(cond)?;
    }
    let cond = parts.pop();
    Ok(if parts.is_empty() { cond } else { None })
}

/// The condition that a word writes over the parts before it, which it takes away.
fn next_of(alloc: Global, parts: &mut Vec<Cond>, word: &str) -> Result<Option<Cond>, AllocError> {
    let mut pieces = Vec::new(alloc);
    for piece in word.split(':') {
        pieces.push(piece)?;
    }
    Ok(match pieces.as_slice() {
        ["true"] => Some(Cond::True),
        ["on", supply] => on(*supply),
        ["is", supply, value] => is(*supply, *value),
        ["apart", low, high, above] => apart(*low, *high, *above),
        ["not"] => match parts.pop() {
            Some(part) => Some(Cond::Not(Boxed::new(alloc, part)?)),
            None => None,
        },
        ["all", count] => last_of(parts, *count)?.map(Cond::All),
        ["any", count] => last_of(parts, *count)?.map(Cond::Any),
        _ => None,
    })
}

fn on(supply: &str) -> Option<Cond> {
    let supply = supply.parse::<u32>().ok()?;
    Some(Cond::On { supply })
}

fn is(supply: &str, value: &str) -> Option<Cond> {
    let supply = supply.parse::<u32>().ok()?;
    let value = value_of(value)?;
    Some(Cond::Is { supply, value })
}

fn apart(low: &str, high: &str, above: &str) -> Option<Cond> {
    let low = low.parse::<u32>().ok()?;
    let high = high.parse::<u32>().ok()?;
    let above = above.parse::<u32>().ok()?;
    Some(Cond::Apart { low, high, above })
}

/// `off`, or microvolts.
pub fn value_of(word: &str) -> Option<Value> {
    if word == "off" {
        return Some(Value::Off);
    }
    Some(Value::On(word.parse::<u32>().ok()?))
}

/// The last so many of the parts, in their order.
fn last_of(parts: &mut Vec<Cond>, count: &str) -> Result<Option<List<Cond>>, AllocError> {
    let Ok(count) = count.parse::<usize>() else {
        return Ok(None);
    };
    if count > parts.len() {
        return Ok(None);
    }
    let at = parts.len() - count;
    Ok(List::from_vec(parts.split_off(at)?))
}

/// Whether a condition speaks of the first so many supplies alone.
#[cycle(speaks)]
#[tactic(auto, using(supply_defs::proofs::Meaning::speaking))]
pub fn speaks(count: u32, cond: &Cond) -> bool
    ensures { result ≡ speaks_below count cond.now }
{
    match cond {
        Cond::True => true,
        Cond::Is { supply, value: _ } => *supply < count,
        Cond::On { supply } => *supply < count,
        Cond::Apart {
            low,
            high,
            above: _,
        } => *low < count && *high < count,
        Cond::Not(part) => speaks(count, part.get()),
        Cond::All(parts) => all_speak(count, parts.as_slice()),
        Cond::Any(parts) => all_speak(count, parts.as_slice()),
    }
}

#[cycle(speaks)]
fn all_speak(count: u32, parts: &[Cond]) -> bool
    ensures { result ≡ list_all (speaks_below count) parts.now }
{
    for part in parts {
        if !speaks(count, part) {
            return false;
        }
    }
    true
}
