//! The lines of files and of the bodies of power models.
ghost use Rattle.std.specs.Prelude.{◌≡◌, IfOk, IfErr, IfSome, IsUtf8, true, false};
ghost use Rattle.pw_outer.specs.Counts.{NoneFalls};
ghost use Rattle.script_defs.specs.ReadStatements.{readers};
ghost use Rattle.script_defs.specs.Refused.{text_refusal};
ghost use Rattle.script_defs.specs.Runs.{AreSourceLines, OpensLines, IsFileRefused, IsSourceRefused};
ghost use Rattle.script_defs.specs.UnitSteps.{Source as PlainSource};
ghost use Rattle.script_runs.specs.Outcomes.{held_by, IsHeld, IsStopOf, StopsLoad, StopsReading};
ghost use Rattle.script_runs.specs.Views.{source_view, HasText};

use crate::frames::Source;
use pw_defs::{At, Code, List, LoadFault, Memory, Name, Refusal, TclFault};
use pw_outer::{Shelf, ShelfFault};
use script_lines::Lines;
use std::alloc::Global;
use tcl_words::read_script;

/// The refusal of a file by its name.
fn file_refusal(alloc: Global, code: Code, name: &str) -> Result<Refusal, Memory>
    ensures { IfOk result (λ r. r ≡ record { code = code; file = name.now; line = 0; name = name.now }) }
{
    Ok(Refusal {
        code,
        file: Name::from_slice(alloc, name.as_bytes())?,
        line: 0,
        name: Name::from_slice(alloc, name.as_bytes())?,
    })
}

/// A refusal, or want of memory.
fn stop_of(refusal: Result<Refusal, Memory>) -> LoadFault
    ensures { IsStopOf refusal result }
{
    match refusal {
        Ok(refusal) => LoadFault::Refused(refusal),
        Err(Memory) => LoadFault::Memory,
    }
}

/// The refusal of a fault in the words of a text.
fn text_refusal(alloc: Global, file: &str, fault: TclFault) -> Result<Refusal, Memory>
    ensures { IfOk result (λ r. text_refusal file.now fault ≡ Some r) }
{
    let (code, at) = match fault {
        TclFault::T1(at) => (Code::T1, at),
        TclFault::T2(at) => (Code::T2, at),
        TclFault::T3(at) => (Code::T3, at),
        TclFault::T4(at) => (Code::T4, at),
        TclFault::Memory => return Err(Memory),
    };
    let At { line, name } = at;
    Ok(Refusal {
        code,
        file: Name::from_slice(alloc, file.as_bytes())?,
        line,
        name,
    })
}

/// The command lines of a text.
pub(crate) fn read_lines(alloc: Global, name: &str, text: &[u8]) -> Result<Lines, LoadFault>
    ensures lines { IfOk result (λ lines. readers.IsScript text.now lines) }
    ensures stop { IfErr result (StopsReading readers name.now text.now) }
{
    match read_script(alloc, text) {
        Ok(lines) => Ok(Lines::new(alloc, lines)?),
        Err(fault) => Err(stop_of(text_refusal(alloc, name, fault))),
    }
}

/// The text of a file.
fn fetch_text<S: Shelf>(alloc: Global, shelf: &mut S, name: &str) -> Result<Vec<u8>, LoadFault>
    ensures same { S.holds shelf.new ≡ S.holds shelf.old }
    ensures counts { NoneFalls (S.counts shelf.old) (S.counts shelf.new) }
    ensures text { IfOk result (λ text. IfSome (S.holds shelf.old) (λ files. IsHeld files name.now text.items)) }
    ensures stop { IfErr result (λ fault. StopsLoad (S.holds shelf.old)
        (λ files. IsFileRefused readers (held_by files) name.now) (S.counts shelf.old) (S.counts shelf.new) fault) }
{
    let mut text = Vec::new(alloc);
    match shelf.fetch(name, &mut text) {
        Ok(()) => Ok(text),
        Err(ShelfFault::Absent) => Err(stop_of(file_refusal(alloc, Code::F1, name))),
        Err(ShelfFault::TooLong) => Err(stop_of(file_refusal(alloc, Code::F2, name))),
        Err(ShelfFault::Failed) => Err(LoadFault::Outside),
        Err(ShelfFault::Memory) => Err(LoadFault::Memory),
    }
}

/// The command lines of a file.
fn fetch_lines<S: Shelf>(alloc: Global, shelf: &mut S, name: &str) -> Result<Lines, LoadFault>
    ensures same { S.holds shelf.new ≡ S.holds shelf.old }
    ensures counts { NoneFalls (S.counts shelf.old) (S.counts shelf.new) }
    ensures lines { IfOk result (λ lines. IfSome (S.holds shelf.old) (λ files.
        AreSourceLines readers (held_by files) (PlainSource.file name.now) lines)) }
    ensures stop { IfErr result (λ fault. StopsLoad (S.holds shelf.old)
        (λ files. IsFileRefused readers (held_by files) name.now) (S.counts shelf.old) (S.counts shelf.new) fault) }
{
    let text = fetch_text(alloc, shelf, name)?;
    read_lines(alloc, name, text.as_slice())
}

/// The name of a file as a text.
fn name_text(name: &Name) -> &str
    requires { IsUtf8 name.now }
    ensures { result.now ≡ name.now }
{
    match str::from_utf8(name.as_slice()) {
        Ok(text) => text,
        Err(_) => unreachable!(),
    }
}

/// The lines of a frame that is opened. Where a model stands for the instance there are none, and no file is fetched.
pub(crate) fn open_lines<S: Shelf>(
    alloc: Global,
    shelf: &mut S,
    source: &Source,
    modelled: bool,
) -> Result<Lines, LoadFault>
    requires { HasText (source_view source.now) }
    ensures same { S.holds shelf.new ≡ S.holds shelf.old }
    ensures counts { NoneFalls (S.counts shelf.old) (S.counts shelf.new) }
    ensures lines { IfOk result (λ lines. IfSome (S.holds shelf.old) (λ files.
        OpensLines readers (held_by files) (source_view source.now) modelled lines)) }
    ensures stop { IfErr result (λ fault. StopsLoad (S.holds shelf.old)
        (λ files. IsSourceRefused readers (held_by files) (source_view source.now) modelled)
        (S.counts shelf.old) (S.counts shelf.new) fault) }
{
    if modelled {
        return Ok(Lines::new(alloc, List::new(alloc))?);
    }
    match source {
        Source::File(name) => fetch_lines(alloc, shelf, name_text(name)),
        Source::Body { lines, .. } => Ok(lines.share()?),
    }
}
