//! Options that give a word for a key, of which none may be given twice.
ghost use Rattle.std.specs.Prelude.{◌≡◌, ◌↔◌, IsTrue, ℕ, List, map, IfOk, MatchOption};
ghost use Rattle.upf_commands.specs.Commands.{IsKeyed, HasKey, RepeatsKey};
ghost use Rattle.upf_commands.specs.Forms.{keyed};
ghost use Rattle.upf_reader.specs.Faults.{GivesKey, SomeGivesKey};
ghost use Rattle.upf_reader.specs.Parts.{part_view};
ghost use Rattle.upf_reader.specs.Rows.{list_view, option_view};

use crate::partings::{Parting, parted};
use crate::parts::Part;
use crate::table::{ListShape, OptionLine, Shape};
use pw_defs::{Bytes, Memory};
use std::alloc::Global;

/// Whether a list of the form is a key and a word.
fn has_keys(form: ListShape) -> bool
    ensures { IsTrue result ↔ ((keys : List (List ℕ)) × (list_view form ≡ keyed keys)) }
{
    match form {
        ListShape::Keyed(_) => true,
        _ => false,
    }
}

/// Whether the option gives a word for a key.
fn is_keyed(option: &OptionLine) -> bool
    ensures { IsTrue result ↔ IsKeyed (option_view option.now) }
{
    match option.shape {
        Shape::List(form) => has_keys(form),
        _ => false,
    }
}

/// The word with which a list begins.
fn key_of(alloc: Global, text: &[u8]) -> Result<Option<Bytes>, Memory>
    ensures { IfOk result (λ r. MatchOption r ((key : List ℕ) → ¬ HasKey text.now key) (HasKey text.now)) }
{
    let Parting::Words(words) = parted(alloc, text)? else {
        return Ok(None);
    };
    let Some(key) = words.get(0) else {
        return Ok(None);
    };
    Ok(Some(key.clone()?))
}

/// Whether a list begins with the key.
fn has_key(alloc: Global, text: &[u8], key: &[u8]) -> Result<bool, Memory>
    ensures { IfOk result (λ has. IsTrue has ↔ HasKey text.now key.now) }
{
    match key_of(alloc, text)? {
        Some(other) => Ok(other.as_slice() == key),
        None => Ok(false),
    }
}

/// Whether the part gives this option a word for the key.
fn gives_key(alloc: Global, option: &OptionLine, key: &[u8], part: &Part) -> Result<bool, Memory>
    ensures { IfOk result (λ gives. IsTrue gives ↔ GivesKey (option_view option.now) key.now (part_view part.now)) }
{
    match part {
        Part::Given(other, value) => {
            if other.kept == option.kept {
                has_key(alloc, value.as_slice(), key)
            } else {
                Ok(false)
            }
        }
        _ => Ok(false),
    }
}

/// Whether one of the parts gives this option a word for the key.
fn give_key(alloc: Global, option: &OptionLine, key: &[u8], parts: &[Part]) -> Result<bool, Memory>
    ensures { IfOk result (λ give. IsTrue give ↔ SomeGivesKey (option_view option.now) key.now (map part_view parts.now)) }
{
    for part in parts {
        if gives_key(alloc, option, key, part)? {
            return Ok(true);
        }
    }
    Ok(false)
}

/// Whether the option gives a word for a key for which one of the parts has given one.
pub(crate) fn repeats_key(
    alloc: Global,
    parts: &[Part],
    option: &OptionLine,
    text: &[u8],
) -> Result<bool, Memory>
    ensures { IfOk result (λ repeats. IsTrue repeats ↔ RepeatsKey (map part_view parts.now) (option_view option.now) text.now) }
{
    if !is_keyed(option) {
        return Ok(false);
    }
    match key_of(alloc, text)? {
        Some(key) => give_key(alloc, option, key.as_slice(), parts),
        None => Ok(false),
    }
}
