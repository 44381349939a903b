//! What the values of options say.
ghost use Rattle.std.specs.Prelude.{◌≡◌, ℕ, Some, IfOk, IsSome};
ghost use Rattle.text_defs.specs.Volts.{IsVolts};
ghost use Rattle.upf_commands.specs.Forms.{IsWordOf, HasForm};
ghost use Rattle.upf_commands.specs.Values.{truth_of};
ghost use Rattle.upf_reader.specs.Rows.{arity_view, form_view, word_view};
ghost use Rattle.script_defs.specs.ReadStatements.{IsOptionSaid, IsSaid, IsWordSaid};
ghost use Rattle.upf_statements.specs.Taken.{IsTaken};
ghost use Rattle.upf_statements.specs.Views.{parts_view};

use crate::lists::{list_said, pairs_said};
use crate::statements::Parts;
use pw_defs::{Bytes, Memory};
use pw_lex::read_volts;
use std::alloc::Global;
use upf_reader::{Behind, OptionLine, Shape, WordShape, truth_of};

/// The microvolts of a voltage.
pub(crate) fn volts(word: &[u8]) -> u32
    requires { (v : ℕ) × IsVolts word.now v }
    ensures { IsVolts word.now result }
{
    match read_volts(word) {
        Ok(microvolts) => microvolts,
        Err(_) => unreachable!(),
    }
}

/// What a truth says.
fn truth(word: &[u8]) -> bool
    requires { IsSome (truth_of word.now) }
    ensures { truth_of word.now ≡ Some result }
{
    match truth_of(word) {
        Some(says) => says,
        None => unreachable!(),
    }
}

/// What a word says: a voltage, or itself.
fn word_said(alloc: Global, form: WordShape, word: &[u8]) -> Result<Parts, Memory>
    requires { IsWordOf (word_view form) word.now }
    ensures { IfOk result (λ parts. IsWordSaid (word_view form) word.now (parts_view parts)) }
{
    match form {
        WordShape::Volts => Ok(Parts::Volts(volts(word))),
        _ => Ok(Parts::Word(Bytes::from_slice(alloc, word)?)),
    }
}

/// What a value says, by its form.
fn value_said(alloc: Global, form: Shape, value: &[u8]) -> Result<Parts, Memory>
    requires { HasForm (form_view form) value.now }
    ensures { IfOk result (λ parts. IsSaid (form_view form) value.now (parts_view parts)) }
{
    match form {
        Shape::Word(form) => word_said(alloc, form, value),
        Shape::List(form) => list_said(alloc, form, value),
        Shape::Pairs => pairs_said(alloc, value),
    }
}

/// What an option says: a flag nothing, a truth whether it is true, another one what its value says.
pub(crate) fn option_said(alloc: Global, option: &OptionLine, value: &[u8]) -> Result<Parts, Memory>
    requires { IsTaken (arity_view option.now.behind) (form_view option.now.shape) value.now }
    ensures { IfOk result (λ parts. IsOptionSaid (arity_view option.now.behind) (form_view option.now.shape) value.now (parts_view parts)) }
{
    match option.behind {
        Behind::Flag => Ok(Parts::Flag),
        Behind::Truth => Ok(Parts::Truth(truth(value))),
        Behind::Value | Behind::Means(_) | Behind::State => value_said(alloc, option.shape, value),
    }
}
