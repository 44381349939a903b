//! Which values of options have another form, and which have lists that can't be parted.
ghost use Rattle.std.specs.Prelude.{◌≡◌, false, IfOk, MatchOption};
ghost use Rattle.upf_commands.specs.Forms.{IsMisformed, list, pairs};
ghost use Rattle.upf_reader.specs.Faults.{both, IsFormed, ArePairsFormed, HasMisformedPair};
ghost use Rattle.upf_reader.specs.Rows.{list_view, form_view};

use crate::lists::has_list_form;
use crate::partings::{Parting, parted};
use crate::table::{ListShape, Shape};
use crate::words::has_word_form;
use pw_defs::{Bytes, Memory};
use std::alloc::Global;

/// Whether there are lists in which a brace or quote is never closed, and such in which something follows a closed word.
#[derive(Clone, Copy)]
pub(crate) struct OpenLists {
    pub unclosed: bool,
    pub after_word: bool,
}

impl OpenLists {
    /// No such lists.
    pub(crate) fn none() -> OpenLists
        ensures { result ≡ record { unclosed = false; after_word = false } }
    {
        OpenLists {
            unclosed: false,
            after_word: false,
        }
    }

    /// These lists and others.
    pub(crate) fn and(self, other: OpenLists) -> OpenLists
        ensures { result ≡ both self other }
    {
        OpenLists {
            unclosed: self.unclosed || other.unclosed,
            after_word: self.after_word || other.after_word,
        }
    }
}

/// Which open lists the list is; `None` where it has another form.
fn list_formed(alloc: Global, form: ListShape, text: &[u8]) -> Result<Option<OpenLists>, Memory>
    ensures { IfOk result (λ r. MatchOption r (IsMisformed (list (list_view form)) text.now) (IsFormed (list (list_view form)) text.now)) }
{
    match parted(alloc, text)? {
        Parting::Words(words) => {
            if has_list_form(alloc, form, words.as_slice())? {
                Ok(Some(OpenLists::none()))
            } else {
                Ok(None)
            }
        }
        Parting::Unclosed => Ok(Some(OpenLists {
            unclosed: true,
            after_word: false,
        })),
        Parting::AfterWord => Ok(Some(OpenLists {
            unclosed: false,
            after_word: true,
        })),
    }
}

/// Which open lists are among the items of a list of pairs; `None` where one has another form.
fn pairs_formed(alloc: Global, items: &[Bytes]) -> Result<Option<OpenLists>, Memory>
    ensures { IfOk result (λ r. MatchOption r (HasMisformedPair items.now) (ArePairsFormed items.now)) }
{
    let mut lists = OpenLists::none();
    for item in items {
        let Some(more) = list_formed(alloc, ListShape::Pair, item.as_slice())? else {
            return Ok(None);
        };
        lists = lists.and(more);
    }
    Ok(Some(lists))
}

/// Which open lists a list of pairs has; `None` where it has another form.
fn pair_list_formed(alloc: Global, text: &[u8]) -> Result<Option<OpenLists>, Memory>
    ensures { IfOk result (λ r. MatchOption r (IsMisformed pairs text.now) (IsFormed pairs text.now)) }
{
    match parted(alloc, text)? {
        Parting::Words(items) => pairs_formed(alloc, items.as_slice()),
        Parting::Unclosed => Ok(Some(OpenLists {
            unclosed: true,
            after_word: false,
        })),
        Parting::AfterWord => Ok(Some(OpenLists {
            unclosed: false,
            after_word: true,
        })),
    }
}

/// Which open lists a value has; `None` where it has another form.
pub(crate) fn value_formed(
    alloc: Global,
    form: Shape,
    text: &[u8],
) -> Result<Option<OpenLists>, Memory>
    ensures { IfOk result (λ r. MatchOption r (IsMisformed (form_view form) text.now) (IsFormed (form_view form) text.now)) }
{
    match form {
        Shape::Word(form) => Ok(has_word_form(form, text).then_some(OpenLists::none())),
        Shape::List(form) => list_formed(alloc, form, text),
        Shape::Pairs => pair_list_formed(alloc, text),
    }
}
