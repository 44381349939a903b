//! What the words of lists say.
ghost use Rattle.std.specs.Prelude.{◌≡◌, ℕ, ◌≤◌, ◌∷◌, List, drop, length, IfOk};
ghost use Rattle.std.specs.List.{AllZip};
ghost use Rattle.list_defs.specs.Members.{IsIn};
ghost use Rattle.pw_defs.specs.declared.values.Value.{Value as AnyValue};
ghost use Rattle.tcl_words.specs.ListWords.{PartsInto};
ghost use Rattle.upf_commands.specs.Forms.{AreListOf, HasForm, list, pair, pairs, power_state, supply_state};
ghost use Rattle.upf_commands.specs.Values.{IsPair};
ghost use Rattle.upf_commands.specs.Voltages.{IsValue, IsVoltage};
ghost use Rattle.upf_reader.specs.Rows.{list_view};
ghost use Rattle.upf_reader.specs.Tests.{is_off};
ghost use Rattle.script_defs.specs.ReadStatements.{IsListSaid, IsSaid};
ghost use Rattle.upf_statements.specs.Said.{IsList, SayInList};
ghost use Rattle.upf_statements.specs.Views.{parts_view};

use crate::statements::Parts;
use crate::states::options_said;
use crate::values::volts;
use pw_defs::{Bytes, List, Memory, TclFault, Value};
use std::alloc::Global;
use tcl_words::split_list;
use upf_reader::ListShape;

/// The words of a list.
fn parted(alloc: Global, text: &[u8]) -> Result<List<Bytes>, Memory>
    requires { IsList text.now }
    ensures { IfOk result (PartsInto text.now) }
{
    match split_list(alloc, text) {
        Ok(words) => Ok(words),
        Err(fault) => match fault {
            TclFault::Memory => Err(Memory),
            _ => unreachable!(),
        },
    }
}

/// The first two words.
fn first_two(words: &[Bytes]) -> Result<(Bytes, Bytes), Memory>
    requires { 2 ≤ length words.now }
    ensures { IfOk result (λ two. words.now ≡ two.0 ∷ two.1 ∷ drop 2 words.now) }
{
    let first = words[0].clone()?;
    let second = words[1].clone()?;
    Ok((first, second))
}

/// The microvolts that words give: those of one, the middle of two, or the second of three.
fn voltage(words: &[Bytes]) -> u32
    requires { (v : ℕ) × IsVoltage words.now v }
    ensures { IsVoltage words.now result }
{
    match words {
        [word] => volts(word.as_slice()),
        [first, last] => (volts(first.as_slice()) + volts(last.as_slice())) / 2,
        [_, second, _] => volts(second.as_slice()),
        _ => unreachable!(),
    }
}

/// Whether the words say that a supply is off.
fn is_off(words: &[Bytes]) -> bool
    ensures { result ≡ is_off words.now }
{
    match words {
        [word] => word.as_slice() == b"off".as_slice(),
        _ => false,
    }
}

/// The value of a supply.
fn supply_value(words: &[Bytes]) -> Value
    requires { (v : AnyValue) × IsValue words.now v }
    ensures { IsValue words.now result }
{
    if is_off(words) {
        Value::Off
    } else {
        Value::On(voltage(words))
    }
}

/// What a state of a supply says.
fn supply_state_said(words: &[Bytes]) -> Result<Parts, Memory>
    requires { AreListOf supply_state words.now }
    ensures { IfOk result (λ parts. SayInList supply_state words.now (parts_view parts)) }
{
    match words {
        [name, voltage @ ..] => Ok(Parts::Valued(name.clone()?, supply_value(voltage))),
        [] => unreachable!(),
    }
}

/// What a power state says.
fn power_state_said(alloc: Global, words: &[Bytes]) -> Result<Parts, Memory>
    requires { AreListOf power_state words.now }
    ensures { IfOk result (λ parts. SayInList power_state words.now (parts_view parts)) }
{
    match words {
        [name, options @ ..] => {
            let options = options_said(alloc, options)?;
            Ok(Parts::Described(name.clone()?, options))
        }
        [] => unreachable!(),
    }
}

/// What the words of a list say, by its form.
fn words_said(alloc: Global, form: ListShape, words: List<Bytes>) -> Result<Parts, Memory>
    requires { AreListOf (list_view form) words }
    ensures { IfOk result (λ parts. SayInList (list_view form) words (parts_view parts)) }
{
    match form {
        ListShape::Names | ListShape::Scope | ListShape::Columns => Ok(Parts::Names(words)),
        ListShape::Keyed(_)
        | ListShape::Pair
        | ListShape::Attribute
        | ListShape::SwitchPort
        | ListShape::OnState => Ok(Parts::Pair(first_two(words.as_slice())?)),
        ListShape::SupplyState => supply_state_said(words.as_slice()),
        ListShape::PowerState => power_state_said(alloc, words.as_slice()),
    }
}

/// What a list says, by its form.
pub(crate) fn list_said(alloc: Global, form: ListShape, text: &[u8]) -> Result<Parts, Memory>
    requires { HasForm (list (list_view form)) text.now }
    ensures { IfOk result (λ parts. IsListSaid (list_view form) text.now (parts_view parts)) }
{
    let words = parted(alloc, text)?;
    words_said(alloc, form, words)
}

/// The two words of a list.
fn pair_of(alloc: Global, text: &[u8]) -> Result<(Bytes, Bytes), Memory>
    requires { HasForm (list pair) text.now }
    ensures { IfOk result (λ two. IsPair text.now two.0 two.1) }
{
    let words = parted(alloc, text)?;
    let two = first_two(words.as_slice())?;
    Ok(two)
}

/// The pairs that items are.
fn pairs_among(alloc: Global, items: &[Bytes]) -> Result<List<(Bytes, Bytes)>, Memory>
    requires { (item : List ℕ) → IsIn item items.now → HasForm (list pair) item }
    ensures { IfOk result (AllZip (λ item two. IsPair item two.0 two.1) items.now) }
{
    let mut pairs = List::new(alloc);
    for item in items {
        let two = pair_of(alloc, item.as_slice())?;
        pairs.push(two)?;
    }
    Ok(pairs)
}

/// What a list of pairs says.
pub(crate) fn pairs_said(alloc: Global, text: &[u8]) -> Result<Parts, Memory>
    requires { HasForm pairs text.now }
    ensures { IfOk result (λ parts. IsSaid pairs text.now (parts_view parts)) }
{
    let items = parted(alloc, text)?;
    let pairs = pairs_among(alloc, items.as_slice())?;
    Ok(Parts::Pairs(pairs))
}
