//! Statements of power intent (IEEE 1801-2015): a command line with the values of its options taken apart, and lines put
//! together with the bodies of power models.
//!
//! `read_statement` meets `IsStatement` of `script_defs`, and `statement_of` its `IsStatementOf`. A `Statement` is seen as the
//! definitions' own, so that a contract names what stands in it by their words: `is_given`, `name_of`, `names_of`, `pairs_of`,
//! `is_true`, `subject_of`. `blocks_of` says by places which lines are the definitions' `blocks_of`.
#![tactic(auto)]

mod blocks;
mod command_names;
mod lists;
mod readings;
mod reads;
mod statements;
mod states;
mod values;

pub use blocks::{Block, begins_model, blocks_of, ends_model};
pub use command_names::CommandName;
pub use reads::{read_statement, statement_of};
pub use statements::{Clause, Parts, StateOption, Statement};
