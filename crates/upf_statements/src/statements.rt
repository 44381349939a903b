//! Statements and what stands in them.

use pw_defs::{Bytes, List, Name, Term, Value};
use std::marker::Model;

/// What a power state is given: an expression on supplies or on states, which is `None` where no term reads so, or a mark.
#[derive(Drop)]
pub enum StateOption {
    SupplyExpr(Option<Term>),
    LogicExpr(Option<Term>),
    Legal,
    Illegal,
}

/// What the value of an option says.
#[derive(Drop)]
pub enum Parts {
    /// Nothing: the option has no value.
    Flag,
    Truth(bool),
    /// Microvolts.
    Volts(u32),
    Word(Bytes),
    Names(List<Bytes>),
    /// A key with a name, as in `{power VA}`; of an on state of a switch its name and its input port.
    Pair((Bytes, Bytes)),
    /// Names in pairs: a cell and its port, a lower set and the upper one.
    Pairs(List<(Bytes, Bytes)>),
    /// A state of a supply with its value.
    Valued(Bytes, Value),
    /// A state of a set, domain or group with its own options.
    Described(Bytes, List<StateOption>),
}

/// An option with its value, as it was written and taken apart.
#[derive(Drop)]
pub struct Clause {
    pub option: Name,
    pub bytes: Bytes,
    pub parts: Parts,
}

impl Model for Clause {
    ghost use Rattle.script_defs.specs.Statements.{Clause as PlainClause};
    ghost use Rattle.std.specs.Coded.{codes};
    ghost use Rattle.pw_defs.specs.contracts.terms.Term as term;

    ghost Value = { PlainClause };

    ghost coded = { Prim.hlevel (codes, term.the_row.coded) };

    ghost use Rattle.upf_statements.specs.Views.{parts_view};

    ghost view = { λ c. record { option = c.option; bytes = c.bytes; parts = parts_view c.parts } };
}

/// A command with its own words and its options in the order given. `passed` says that it is passed over and counted.
#[derive(Drop)]
pub struct Statement {
    pub name: Name,
    pub args: List<Bytes>,
    pub clauses: List<Clause>,
    pub line: u32,
    pub passed: bool,
}

impl Model for Statement {
    ghost use Rattle.script_defs.specs.Statements.{Statement as PlainStatement};
    ghost use Rattle.std.specs.Coded.{codes};
    ghost use Rattle.pw_defs.specs.contracts.terms.Term as term;

    ghost Value = { PlainStatement };

    ghost coded = { Prim.hlevel (codes, term.the_row.coded) };

    ghost view = { λ s. record { name = s.name; args = s.args; clauses = s.clauses; line = s.line; passed = s.passed } };
}
