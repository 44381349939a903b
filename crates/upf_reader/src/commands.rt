//! Command lines read as commands.
ghost use Rattle.std.specs.Prelude.{◌≡◌, ◌≢◌, [], ◌∷◌, ◌++◌, map, filter_map, IfOk, IfErr, OnOk};
ghost use Rattle.pw_defs.specs.declared.faults.CmdFault.TheVariants.{Memory as OutOfMemory};
ghost use Rattle.upf_commands.specs.CommandFaults.{HasCommandFault};
ghost use Rattle.upf_commands.specs.Commands.{IsCommand, own_word, given_option, command_of, passed_command};
ghost use Rattle.upf_reader.specs.Parts.{part_view, IsLineOf};
ghost use Rattle.upf_reader.specs.Rows.{command_view};

use crate::checks::{check, named};
use crate::parts::{Part, parts_of};
use crate::table::{CommandLine, command_of};
use pw_defs::{Bytes, CmdFault, Command, Given, Line, List, Memory, Name, Options};
use std::alloc::Global;

/// A command that is passed over.
fn passed_command(alloc: Global, line: &Line, row: &CommandLine) -> Result<Command, Memory>
    ensures { IfOk result (λ c. c ≡ passed_command line.now (command_view row.now)) }
{
    Ok(Command {
        name: Name::from_slice(alloc, row.name)?,
        args: List::new(alloc),
        options: Options {
            given: List::new(alloc),
        },
        line: line.number,
        passed: true,
    })
}

/// Adds what a part says to a command's words and options.
fn put_part(
    alloc: Global,
    line: &Line,
    part: Part,
    args: &mut List<Bytes>,
    options: &mut List<Given>,
) -> Result<(), Memory>
    ensures args { OnOk result (args.new ≡ args.old ++ filter_map own_word (part_view part ∷ [])) }
    ensures options { OnOk result (options.new ≡ options.old ++ filter_map (given_option line.now) (part_view part ∷ [])) }
{
    match part {
        Part::Own(word) => {
            args.push(word)?;
            Ok(())
        }
        Part::Given(option, value) => {
            let option = Name::from_slice(alloc, option.kept)?;
            let line = line.number;
            options.push(Given {
                option,
                value,
                line,
            })?;
            Ok(())
        }
        _ => Ok(()),
    }
}

/// The command that the parts make.
fn made_command(
    alloc: Global,
    line: &Line,
    row: &CommandLine,
    parts: Vec<Part>,
) -> Result<Command, Memory>
    ensures { IfOk result (λ c. c ≡ command_of line.now (command_view row.now) (map part_view parts.items)) }
{
    let mut args = List::new(alloc);
    let mut given = List::new(alloc);
    for part in parts {
        put_part(alloc, line, part, &mut args, &mut given)?;
    }
    Ok(Command {
        name: Name::from_slice(alloc, row.name)?,
        args,
        options: Options { given },
        line: line.number,
        passed: false,
    })
}

/// The command of a line whose command is known and isn't passed over.
fn known_command(
    alloc: Global,
    line: &Line,
    row: &CommandLine,
    words: &[Bytes],
) -> Result<Command, CmdFault>
    requires { IsLineOf line.now (command_view row.now) words.now }
    ensures ok { IfOk result (IsCommand line.now) }
    ensures err { IfErr result (λ fault. fault ≢ OutOfMemory → HasCommandFault line.now fault) }
{
    let parts = parts_of(alloc, row, words)?;
    check(alloc, line, row, &parts)?;
    let command = made_command(alloc, line, row, parts)?;
    Ok(command)
}

/// The command that a line is: its name, own words and options, in order.
///
/// An error is the first fault of the line, or want of memory. A line without words, which no script has, is an unknown
/// command without a name.
pub fn read_command(alloc: Global, line: &Line) -> Result<Command, CmdFault>
    ensures ok { IfOk result (IsCommand line.now) }
    ensures err { IfErr result (λ fault. fault ≢ OutOfMemory → line.now.words ≢ [] → HasCommandFault line.now fault) }
{
    let [name, words @ ..] = line.words.as_slice() else {
        return Err(CmdFault::U1(named(alloc, line, b"")?));
    };
    let Some(row) = command_of(name.as_slice()) else {
        return Err(CmdFault::U1(named(alloc, line, name.as_slice())?));
    };
    if row.passed {
        let command = passed_command(alloc, line, row)?;
        return Ok(command);
    }
    known_command(alloc, line, row, words)
}
