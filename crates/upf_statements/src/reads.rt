//! Command lines read as statements.
ghost use Rattle.std.specs.Prelude.{◌≡◌, ◌≢◌, [], List, ℕ, option_map, find, IfOk, IfErr};
ghost use Rattle.std.specs.List.{AllZip};
ghost use Rattle.list_defs.specs.Members.{same_name};
ghost use Rattle.pw_defs.specs.declared.faults.CmdFault.TheVariants.{Memory as OutOfMemory};
ghost use Rattle.upf_commands.specs.CommandFaults.{HasCommandFault};
ghost use Rattle.upf_reader.specs.Rows.{command_view, option_view};
ghost use Rattle.script_defs.specs.ReadStatements.{IsClauseOf, IsStatement, IsStatementOf};
ghost use Rattle.upf_statements.specs.Said.{IsClauseIn};
ghost use Rattle.upf_statements.specs.Taken.{AreTakenOptions, IsOfSomeLine, IsTakenCommand, IsTakenOption, kept_option};

use crate::statements::{Clause, Statement};
use crate::values::option_said;
use pw_defs::{Bytes, CmdFault, Command, Given, Line, List, Memory};
use std::alloc::Global;
use upf_reader::{CommandLine, OptionLine, command_of, read_command};

/// The option of a command that is kept under the name.
fn kept_option(command: &CommandLine, name: &[u8]) -> Option<&'static OptionLine>
    ensures { option_map (λ o. option_view o.now) result ≡ kept_option (command_view command.now) name.now }
{
    for option in command.options {
        if name == option.kept {
            return Some(option);
        }
    }
    None
}

/// The clause that an option is.
fn clause_of(alloc: Global, row: &CommandLine, given: &Given) -> Result<Clause, Memory>
    requires { IsTakenOption (command_view row.now) given.now }
    ensures { IfOk result (IsClauseIn (command_view row.now) given.now) }
{
    let Some(option) = kept_option(row, given.option.as_slice()) else {
        unreachable!();
    };
    let parts = option_said(alloc, option, given.value.as_slice())?;
    Ok(Clause {
        option: given.option.clone()?,
        bytes: given.value.clone()?,
        parts,
    })
}

/// The clauses that options are.
fn clauses_of(alloc: Global, row: &CommandLine, given: &[Given]) -> Result<List<Clause>, Memory>
    requires { AreTakenOptions (command_view row.now) given.now }
    ensures { IfOk result (AllZip (IsClauseIn (command_view row.now)) given.now) }
{
    let mut clauses = List::new(alloc);
    for option in given {
        clauses.push(clause_of(alloc, row, option)?)?;
    }
    Ok(clauses)
}

/// Copies of words.
fn copied(alloc: Global, words: &[Bytes]) -> Result<List<Bytes>, Memory>
    ensures { IfOk result (λ copies. copies ≡ words.now) }
{
    let mut copies = List::new(alloc);
    for word in words {
        copies.push(word.clone()?)?;
    }
    Ok(copies)
}

/// The statement that a command is whose options can be taken apart.
fn taken_apart(alloc: Global, command: &Command) -> Result<Statement, Memory>
    requires { IsTakenCommand command.now }
    ensures { IfOk result (IsStatementOf command.now) }
{
    let Some(row) = command_of(command.name.as_slice()) else {
        unreachable!();
    };
    let clauses = clauses_of(alloc, row, command.options.given.as_slice())?;
    Ok(Statement {
        name: command.name.clone()?,
        args: copied(alloc, command.args.as_slice())?,
        clauses,
        line: command.line,
        passed: command.passed,
    })
}

/// The statement that the command of a line is.
pub fn statement_of(alloc: Global, command: &Command) -> Result<Statement, Memory>
    requires { IsOfSomeLine command.now }
    ensures { IfOk result (IsStatementOf command.now) }
{
    taken_apart(alloc, command)
}

/// The statement that a line is.
///
/// An error is the first fault of the line, or want of memory. A line without words, which no script has, is an unknown
/// command without a name.
pub fn read_statement(alloc: Global, line: &Line) -> Result<Statement, CmdFault>
    ensures ok { IfOk result (IsStatement line.now) }
    ensures err { IfErr result (λ fault. fault ≢ OutOfMemory → line.now.words ≢ [] → HasCommandFault line.now fault) }
{
    let command = read_command(alloc, line)?;
    let statement = statement_of(alloc, &command)?;
    Ok(statement)
}
