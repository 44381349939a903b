//! Reading at the front of a text: words, names, and things in a row. What is read comes with the text behind it.
ghost use Rattle.std.specs.Prelude.{◌≡◌, ◌<◌, ◌≤◌, ◌||◌, ◌==◌, List, ℕ, Bool, Option, length, IfOk, IsTrue};
ghost use Rattle.std.specs.List.{prefix_len, list_any};
ghost use Rattle.std.specs.Str.{bytes_eq};
ghost use Rattle.std.specs.Option.{option_copied};
ghost use Rattle.line_forms.specs.Names.{is_letter, is_name_byte, is_reserved};
ghost use Rattle.line_forms.specs.Reading.{Gives, Read, behind, begins, name_at, plain_at, dir_at, many_at, with_front, listed_at};

use crate::fault::ReadFault;
use pw_defs::{Dir, List, Name};
use std::alloc::Global;

/// The words that are no names in a netlist.
static RESERVED_WORDS: [&[u8]; 42] = [
    b"always",
    b"initial",
    b"reg",
    b"integer",
    b"parameter",
    b"localparam",
    b"defparam",
    b"function",
    b"task",
    b"generate",
    b"genvar",
    b"specify",
    b"primitive",
    b"tri",
    b"tri0",
    b"tri1",
    b"wand",
    b"wor",
    b"supply0",
    b"supply1",
    b"and",
    b"nand",
    b"or",
    b"nor",
    b"xor",
    b"xnor",
    b"not",
    b"buf",
    b"bufif0",
    b"bufif1",
    b"notif0",
    b"notif1",
    b"real",
    b"time",
    b"event",
    b"module",
    b"endmodule",
    b"input",
    b"output",
    b"inout",
    b"wire",
    b"assign",
];

/// The text behind a word that it begins with.
pub fn behind<'a>(text: &'a [u8], word: &[u8]) -> Option<&'a [u8]>
    ensures { option_copied result ≡ behind word.now text.now }
{
    text.strip_prefix(word)
}

/// The text behind a word that it has to begin with.
pub fn expect_word<'a>(text: &'a [u8], word: &[u8]) -> Result<&'a [u8], ReadFault>
    ensures { Gives (λ rest. rest.now) result (behind word.now text.now) }
{
    match behind(text, word) {
        Some(rest) => Ok(rest),
        None => Err(ReadFault::OtherForm),
    }
}

fn is_letter(byte: u8) -> bool
    ensures { result ≡ is_letter byte }
{
    byte.is_ascii_alphabetic() || byte == b'_'
}

fn is_name_byte(byte: u8) -> bool
    ensures { result ≡ is_name_byte byte }
{
    is_letter(byte) || byte.is_ascii_digit()
}

/// How many bytes of a name the text begins with.
fn name_len(text: &[u8]) -> usize
    ensures len { result ≡ prefix_len is_name_byte text.now }
    ensures within { result ≤ length text.now }
{
    text.iter().take_while(|byte| is_name_byte(**byte)).count()
}

/// A name, as long as its bytes go on.
#[tactic(auto, unfolding(crate::specs::Reading::name_at))]
pub fn name(alloc: Global, text: &[u8]) -> Result<(Name, &[u8]), ReadFault>
    ensures { Gives (λ x. (x.0, x.1.now)) result (name_at text.now) }
{
    match text {
        [first, ..] if is_letter(*first) => {
            let (name, rest) = text.split_at(name_len(text));
            Ok((Name::from_slice(alloc, name)?, rest))
        }
        _ => Err(ReadFault::OtherForm),
    }
}

/// Whether the word is one of these words.
fn is_among(word: &[u8], words: &[&[u8]]) -> bool
    ensures { result ≡ list_any (λ w. bytes_eq word.now w.now) words.now }
{
    words.iter().any(|other| word == *other)
}

/// Whether the word is reserved in netlists.
fn is_reserved(word: &[u8]) -> bool
    ensures { result ≡ is_reserved word.now }
{
    is_among(word, &RESERVED_WORDS)
}

/// A name that is no reserved word.
#[tactic(auto, unfolding(crate::specs::Reading::plain_at))]
pub fn plain_name(alloc: Global, text: &[u8]) -> Result<(Name, &[u8]), ReadFault>
    ensures { Gives (λ x. (x.0, x.1.now)) result (plain_at text.now) }
{
    let (name, rest) = name(alloc, text)?;
    if is_reserved(name.as_slice()) {
        return Err(ReadFault::OtherForm);
    }
    Ok((name, rest))
}

/// Which way a pin or a port carries its signal.
#[tactic(auto, unfolding(crate::specs::Reading::dir_at))]
pub fn direction(text: &[u8]) -> Result<(Dir, &[u8]), ReadFault>
    ensures { Gives (λ x. (x.0, x.1.now)) result (dir_at text.now) }
{
    if let Some(rest) = behind(text, b"input") {
        return Ok((Dir::Input, rest));
    }
    let rest = expect_word(text, b"output")?;
    Ok((Dir::Output, rest))
}

/// Something of which a text has many in a row.
pub trait Form: Drop + Sized {
    ghost read_at: { Read Self };

    ghost goes_on: { List ℕ → Bool };

    /// Whether one more follows.
    fn follows(rest: &[u8]) -> bool
        ensures { result ≡ goes_on rest.now };

    /// One of them, and the text behind it.
    fn read(alloc: Global, text: &[u8]) -> Result<(Self, &[u8]), ReadFault>
        ensures gives { Gives (λ x. (x.0, x.1.now)) result (read_at text.now) }
        ensures shorter { IfOk result (λ x. length x.1.now < length text.now) };
}

/// All that follow, behind those that were read.
pub fn read_more<T: Form>(
    alloc: Global,
    read: List<T>,
    text: &[u8],
) -> Result<(List<T>, &[u8]), ReadFault>
    ensures { Gives (λ x. (x.0, x.1.now)) result (with_front read (many_at T.goes_on T.read_at text.now)) }
{
    let mut all = read;
    let mut rest = text;
    while T::follows(rest) {
        let (item, after) = T::read(alloc, rest)?;
        all.push(item)?;
        rest = after;
    }
    Ok((all, rest))
}

/// All that stand in a row at the front of the text.
pub fn read_all<T: Form>(alloc: Global, text: &[u8]) -> Result<(List<T>, &[u8]), ReadFault>
    ensures { Gives (λ x. (x.0, x.1.now)) result (many_at T.goes_on T.read_at text.now) }
{
    read_more(alloc, List::new(alloc), text)
}

/// Something of which a text may have a list, with commas between them. As a [`Form`] it is a further one of the
/// list, and is read with the comma before it.
pub trait Listed: Form {
    ghost item_at: { Read Self };

    /// One of them, with no comma before it.
    fn read_item(alloc: Global, text: &[u8]) -> Result<(Self, &[u8]), ReadFault>
        ensures { Gives (λ x. (x.0, x.1.now)) result (item_at text.now) };
}

/// A list up to the parenthesis that ends its line, and the text of the next line.
#[tactic(auto, unfolding(crate::specs::Reading::some_at))]
pub fn read_list<T: Listed>(alloc: Global, text: &[u8]) -> Result<(List<T>, &[u8]), ReadFault>
    ensures { Gives (λ x. (x.0, x.1.now)) result (listed_at T.item_at T.goes_on T.read_at text.now) }
{
    let mut items = List::new(alloc);
    if let Some(rest) = behind(text, b");\n") {
        return Ok((items, rest));
    }
    let (first, rest) = T::read_item(alloc, text)?;
    items.push(first)?;
    let (items, rest) = read_more(alloc, items, rest)?;
    let rest = expect_word(rest, b");\n")?;
    Ok((items, rest))
}
