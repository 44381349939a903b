//! The reader of libraries.
ghost use Rattle.std.specs.Prelude.{◌≡◌, ◌<◌, ◌⊎◌, length, IfOk, Ok, Err};
ghost use Rattle.line_forms.specs.LibraryForm.{library_text, IsLibrary};
ghost use Rattle.line_forms.specs.LibraryReading.{role_at, pin_at, kind_at, is_open, cell_at, library_at};
ghost use Rattle.line_forms.specs.Reading.{Gives, whole};
ghost use Rattle.line_forms.specs.declared.library_lines.Library.{Library};

use crate::fault::ReadFault;
use crate::library_lines::{CellKind, CellLines, Library, PinLine, Role};
use crate::text::{Form, behind, direction, expect_word, name, read_all};
use std::alloc::Global;

#[tactic(auto, unfolding(crate::specs::LibraryReading::role_at))]
fn role(text: &[u8]) -> (Option<Role>, &[u8])
    ensures { role_at text.now ≡ Some (result.0, result.1.now) }
{
    if let Some(rest) = behind(text, b"isolation_cell_data_pin : true; ") {
        (Some(Role::IsolationData), rest)
    } else if let Some(rest) = behind(text, b"isolation_cell_enable_pin : true; ") {
        (Some(Role::IsolationEnable), rest)
    } else if let Some(rest) = behind(text, b"level_shifter_data_pin : true; ") {
        (Some(Role::ShifterData), rest)
    } else if let Some(rest) = behind(text, b"level_shifter_enable_pin : true; ") {
        (Some(Role::ShifterEnable), rest)
    } else {
        (None, text)
    }
}

#[tactic(auto, unfolding(crate::specs::LibraryReading::kind_at))]
fn kind(text: &[u8]) -> (CellKind, &[u8])
    ensures { kind_at text.now ≡ Some (result.0, result.1.now) }
{
    if let Some(rest) = behind(text, b"is_isolation_cell : true;\n") {
        (CellKind::Isolation, rest)
    } else if let Some(rest) = behind(text, b"is_level_shifter : true;\n") {
        (CellKind::Shifter, rest)
    } else {
        (CellKind::Plain, text)
    }
}

#[tactic(auto, unfolding(crate::specs::LibraryReading::pin_at))]
fn pin(alloc: Global, text: &[u8]) -> Result<(PinLine, &[u8]), ReadFault>
    ensures { Gives (λ x. (x.0, x.1.now)) result (pin_at text.now) }
{
    let rest = expect_word(text, b"pin(")?;
    let (name, rest) = name(alloc, rest)?;
    let rest = expect_word(rest, b") { direction : ")?;
    let (dir, rest) = direction(rest)?;
    let rest = expect_word(rest, b"; ")?;
    let (role, rest) = role(rest);
    let rest = expect_word(rest, b"}\n")?;
    Ok((PinLine { name, dir, role }, rest))
}

/// Whether another line comes before the brace that closes.
fn is_open(rest: &[u8]) -> bool
    ensures { result ≡ is_open rest.now }
{
    behind(rest, b"}\n").is_none()
}

impl Form for PinLine {
    ghost use Rattle.line_forms.specs.LibraryReading.{pin_at, is_open};

    ghost read_at = { pin_at };

    ghost goes_on = { is_open };

    fn follows(rest: &[u8]) -> bool {
        is_open(rest)
    }

    fn read(alloc: Global, text: &[u8]) -> Result<(PinLine, &[u8]), ReadFault> {
        pin(alloc, text)
    }
}

#[tactic(auto, unfolding(crate::specs::LibraryReading::cell_at))]
fn cell(alloc: Global, text: &[u8]) -> Result<(CellLines, &[u8]), ReadFault>
    ensures { Gives (λ x. (x.0, x.1.now)) result (cell_at text.now) }
{
    let rest = expect_word(text, b"cell(")?;
    let (name, rest) = name(alloc, rest)?;
    let rest = expect_word(rest, b") {\n")?;
    let (kind, rest) = kind(rest);
    let (pins, rest) = read_all(alloc, rest)?;
    let rest = expect_word(rest, b"}\n")?;
    Ok((CellLines { name, kind, pins }, rest))
}

impl Form for CellLines {
    ghost use Rattle.line_forms.specs.LibraryReading.{cell_at, is_open};

    ghost read_at = { cell_at };

    ghost goes_on = { is_open };

    fn follows(rest: &[u8]) -> bool {
        is_open(rest)
    }

    fn read(alloc: Global, text: &[u8]) -> Result<(CellLines, &[u8]), ReadFault> {
        cell(alloc, text)
    }
}

#[tactic(auto, unfolding(crate::specs::LibraryReading::library_at))]
fn library(alloc: Global, text: &[u8]) -> Result<Library, ReadFault>
    ensures { Gives (λ x. x) result (whole library_at text.now) }
{
    let rest = expect_word(text, b"library(")?;
    let (name, rest) = name(alloc, rest)?;
    let rest = expect_word(rest, b") {\n")?;
    let (cells, rest) = read_all(alloc, rest)?;
    let rest = expect_word(rest, b"}\n")?;
    if !rest.is_empty() {
        return Err(ReadFault::OtherForm);
    }
    Ok(Library { name, cells })
}

/// The library that the text is, where it is one: each line as it is spelled, and nothing else.
pub fn read_library(alloc: Global, text: &[u8]) -> Result<Library, ReadFault>
    // What is read is spelled so, each byte of it.
    ensures found { IfOk result (λ x. IsLibrary x × (text.now ≡ library_text x)) }

    // What is spelled so is read, unless memory runs out.
    ensures only { (x : Library) → IsLibrary x → text.now ≡ library_text x
        → (result ≡ Ok x) ⊎ (result ≡ Err ReadFault.Memory) }
{
    library(alloc, text)
}
