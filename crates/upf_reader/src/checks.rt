//! What keeps the parts of a line from being a command.
ghost use Rattle.std.specs.Prelude.{◌≡◌, ◌≢◌, false, true, map, IfOk, IfErr, OnOk, MatchOption};
ghost use Rattle.pw_defs.specs.declared.faults.CmdFault.TheVariants.{Memory as OutOfMemory};
ghost use Rattle.upf_commands.specs.CommandFaults.{IsBad, HasCommandFault, named, shown};
ghost use Rattle.upf_commands.specs.CommandWords.{given, own};
ghost use Rattle.upf_commands.specs.Commands.{IsGood, HasItems, IsWhole};
ghost use Rattle.upf_reader.specs.Judging.{AreItemsFormed, IsItemFormed, Judges};
ghost use Rattle.upf_reader.specs.Parts.{part_view};
ghost use Rattle.upf_reader.specs.Rows.{command_view, option_view};

use crate::apart::may_give;
use crate::keys::repeats_key;
use crate::lacks::{first_missing, first_unknown, has_own};
use crate::parts::Part;
use crate::table::{CommandLine, OptionLine};
use crate::values::{OpenLists, value_formed};
use crate::words::has_word_form;
use pw_defs::{At, CmdFault, Line, Memory, Name};
use std::alloc::Global;

/// Whether an own word is good behind these parts; else it is bad.
fn own_fits(row: &CommandLine, before: &[Part], word: &[u8]) -> bool
    ensures good { result ≡ true → IsGood (command_view row.now) (map part_view before.now) (own word.now) }
    ensures bad { result ≡ false → IsBad (command_view row.now) (map part_view before.now) (own word.now) }
{
    match row.own {
        Some(form) => !has_own(before) && has_word_form(form, word),
        None => false,
    }
}

/// Which open lists an own word has, none; `None` where it is bad.
fn own_formed(row: &CommandLine, before: &[Part], word: &[u8]) -> Option<OpenLists>
    ensures { MatchOption result (IsBad (command_view row.now) (map part_view before.now) (own word.now)) (IsItemFormed (command_view row.now) (map part_view before.now) (own word.now)) }
{
    if own_fits(row, before, word) {
        Some(OpenLists::none())
    } else {
        None
    }
}

/// Which open lists an option's value has; `None` where the option is bad.
fn given_formed(
    alloc: Global,
    row: &CommandLine,
    before: &[Part],
    option: &OptionLine,
    value: &[u8],
) -> Result<Option<OpenLists>, Memory>
    ensures { IfOk result (λ r. MatchOption r (IsBad (command_view row.now) (map part_view before.now) (given (option_view option.now) value.now)) (IsItemFormed (command_view row.now) (map part_view before.now) (given (option_view option.now) value.now))) }
{
    if !may_give(row, before, option) {
        return Ok(None);
    }
    if repeats_key(alloc, before, option, value)? {
        return Ok(None);
    }
    value_formed(alloc, option.shape, value)
}

/// Which open lists a part has; `None` where it is bad.
fn part_formed(
    alloc: Global,
    row: &CommandLine,
    before: &[Part],
    part: &Part,
) -> Result<Option<OpenLists>, Memory>
    ensures { IfOk result (λ r. MatchOption r (IsBad (command_view row.now) (map part_view before.now) (part_view part.now)) (IsItemFormed (command_view row.now) (map part_view before.now) (part_view part.now))) }
{
    match part {
        Part::Own(word) => Ok(own_formed(row, before, word.as_slice())),
        Part::Given(option, value) => { given_formed(alloc, row, before, option, value.as_slice()) }
        _ => Ok(Some(OpenLists::none())),
    }
}

/// The name that a refusal of the part shows.
fn shown<'a>(row: &'a CommandLine, part: &'a Part) -> &'a [u8]
    ensures { result.now ≡ shown (command_view row.now) (part_view part.now) }
{
    match part {
        Part::Own(_) => row.name,
        Part::Given(option, _) => option.kept,
        Part::Unknown(word) => word.as_slice(),
        Part::Lacking(option) => option.kept,
    }
}

/// A bad part, by the name that its refusal shows, or which open lists the parts have.
#[derive(Clone, Copy)]
pub(crate) enum Judged<'a> {
    Bad(&'a [u8]),
    Formed(OpenLists),
}

/// Judges the parts one by one.
fn judge<'a>(alloc: Global, row: &'a CommandLine, parts: &'a [Part]) -> Result<Judged<'a>, Memory>
    ensures { IfOk result (Judges (command_view row.now) (map part_view parts.now)) }
{
    let mut lists = OpenLists::none();
    for at in 0..parts.len() {
        let Some(more) = part_formed(alloc, row, &parts[..at], &parts[at])? else {
            return Ok(Judged::Bad(shown(row, &parts[at])));
        };
        lists = lists.and(more);
    }
    Ok(Judged::Formed(lists))
}

/// The line, with a name.
pub(crate) fn named(alloc: Global, line: &Line, name: &[u8]) -> Result<At, Memory>
    ensures { IfOk result (λ at. at ≡ named line.now name.now) }
{
    Ok(At {
        line: line.number,
        name: Name::from_slice(alloc, name)?,
    })
}

/// Whether the parts of the line are a command.
///
/// An error is the first fault of a line that has these parts, or want of memory.
pub(crate) fn check(
    alloc: Global,
    line: &Line,
    row: &CommandLine,
    parts: &[Part],
) -> Result<(), CmdFault>
    ensures ok { OnOk result (IsWhole (command_view row.now) (map part_view parts.now)) }
    ensures err { IfErr result (λ fault. fault ≢ OutOfMemory → HasItems line.now (command_view row.now) (map part_view parts.now) → HasCommandFault line.now fault) }
{
    if let Some(name) = first_unknown(parts) {
        return Err(CmdFault::U2(named(alloc, line, name)?));
    }
    if let Some(name) = first_missing(row, parts) {
        return Err(CmdFault::U3(named(alloc, line, name)?));
    }
    match judge(alloc, row, parts)? {
        Judged::Bad(name) => Err(CmdFault::U4(named(alloc, line, name)?)),
        Judged::Formed(lists) => {
            if lists.unclosed {
                return Err(CmdFault::T1(named(alloc, line, b"-")?));
            }
            if lists.after_word {
                return Err(CmdFault::T2(named(alloc, line, b"-")?));
            }
            Ok(())
        }
    }
}
