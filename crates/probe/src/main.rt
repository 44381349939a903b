//! Answers single calls of the crates below the program, so that tables of their answers can stand outside as data.
//!
//! Each line of the input is a call with its arguments, and its answer is printed as a line. `unknown` answers a line
//! that is no call, or whose arguments don't meet the call's conditions.
//!
//! - `table BOUND LEVELS ARITY` begins a table of sets of states; `full LEVEL`, `literal LEVEL MASK`, `case LEVEL A B`,
//!   `and LEVEL A B`, `or LEVEL A B`, `complement LEVEL A` answer a number or `bound N`; `nodes`, `holds N INDEX ..`.
//! - `supply VALUE ..` adds a supply with its values, `off` or microvolts; `supplies` begins anew.
//! - `legal CONDITION` answers the legal states, `build CONDITION` the number of its set in the table. A condition is
//!   written from its parts on: `on:0`, `is:0:off`, `is:0:800000`, `apart:0:1:100000`, `true`, `not`, `all:2`, `any:0`.
//! - `read_volts TEXT` answers microvolts, `form` or `range`; `volts_text MICROVOLTS` answers volts.
//! - `read_library TEXT ..` answers the cells of libraries, each joined to those before it, and `read_netlist TEXT` the modules of a
//!   netlist, or their first fault. A text is `x` and two hexadecimal digits for each byte; `tests/tables.py` says how cells,
//!   modules and faults are written.
//! - `elaborate TOP [library TEXT].. [netlist TEXT].. [model TEXT]..` answers how many instances and bits the design of libraries
//!   and netlists has below the top of this name, where models stand for modules; or the first fault of the texts, with the number
//!   of the library or netlist; or the first fault of the design, with the numbers of its module and of the netlist of that. The
//!   module `models` says how a model is written.
//! - `name NAME` answers the number of the name, which it has from its first such line on.
#![tactic(auto)]

mod conditions;
mod designs;
mod libraries;
mod model_bits;
mod model_forms;
mod models;
mod names;
mod netlists;
mod states;
mod tables;
mod texts;
mod voltages;
mod words;

use name_index::NameIndex;
use state_diagrams::Pool;
use states::Supplies;
use std::alloc::{AllocError, Global};
use std::io;
use words::{answer_text, numbers_of, unknown, words_of};

/// What the lines so far have begun.
#[derive(Drop)]
struct Session {
    table: Option<Pool>,
    supplies: Supplies,
    names: NameIndex,
}

/// The answer of a call.
fn answer(alloc: Global, session: &mut Session, words: &[&str]) -> Result<String, AllocError> {
    let Some((call, arguments)) = words.split_first() else {
        return unknown(alloc);
    };
    match *call {
        "supplies" => {
            session.supplies = Supplies::new(alloc);
            String::from_str(alloc, "supplies")
        }
        "supply" => session.supplies.add(alloc, arguments),
        "read_volts" => voltages::read_text(alloc, arguments),
        "volts_text" => voltages::printed_text(alloc, arguments),
        "name" => names::number_text(alloc, &mut session.names, arguments),
        "read_library" => libraries::library_text(alloc, arguments),
        "read_netlist" => netlists::netlist_text(alloc, arguments),
        "elaborate" => designs::design_text(alloc, arguments),
        "legal" => states::legal_text(alloc, &session.supplies, arguments),
        "table" => {
            session.table = tables::table_of(alloc, arguments)?;
            answer_text(alloc, session.table.is_some(), "table")
        }
        _ => match &mut session.table {
            Some(pool) => table_answer(alloc, pool, &session.supplies, *call, arguments),
            None => unknown(alloc),
        },
    }
}

/// The answer of a call on a table.
fn table_answer(
    alloc: Global,
    pool: &mut Pool,
    supplies: &Supplies,
    call: &str,
    arguments: &[&str],
) -> Result<String, AllocError> {
    if call == "build" {
        return states::build_text(alloc, pool, supplies, arguments);
    }
    match numbers_of(alloc, arguments)? {
        Some(numbers) => tables::answer(alloc, pool, call, numbers.as_slice()),
        None => unknown(alloc),
    }
}

fn main(rt: HostRuntime) -> io::Result<()> {
    let alloc = rt.alloc();
    let mut session = Session {
        table: None,
        supplies: Supplies::new(alloc),
        names: NameIndex::new(alloc),
    };
    for line in rt.lines(alloc) {
        let line = line?;
        let words = words_of(alloc, line.as_str())?;
        let text = answer(alloc, &mut session, words.as_slice())?;
        println!(rt; "{text}")?;
    }
    Ok(())
}
