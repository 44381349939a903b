//! Measures large sets of states, by the nodes that they take, and large designs, by what they hold.
//!
//! Words: `pairs N`, `apart N` or `chain N`, where the states in which all links hold are built as one condition,
//! `pairs-walk N`, `apart-walk N` or `chain-walk N`, where the links are built one by one and then joined,
//! `modes ROOTS MODES`, or `random N`. It prints `nodes` and how many nodes the table has then, or `bound` and how many
//! it may have, or `given up` where a walk gave up. For `random` and for links that are built one by one it prints as
//! well how many it had before the last step.
//!
//! `flat N` makes a design of N cells of three pins in one top, `nested N` one of N instances of a block of 300 cells with
//! names of some 1,000 bytes, and reads each whole. It prints how many instances, bits, bits that another one feeds and
//! bytes of names there are.
//!
//! `library FILE` reads a Liberty file and `modules FILE` a netlist, and prints how many cells and pins, or modules, wires,
//! instances and names there are. `netlist LIBRARY NETLIST TOP` makes the design of both below a top, and prints how many
//! modules, instances and bits it has, how many bits another one feeds, and how many a constant. Of a file that isn't read
//! the first fault is printed, by its code, line and name, and the exit status is 2.
#![tactic(auto)]

mod designs;
mod faults;
mod joined;
mod modes;
mod random;
mod readers;
mod sets;

use designs::{flat_told, nested_told};
use readers::{design_told, library_told, modules_told};
use sets::nodes_told;
use std::alloc::{AllocError, Global};
use std::process::ExitCode;
use std::rt::Files;
use std::{env, io};

const USAGE: &str =
    "usage: bench pairs|apart|chain|pairs-walk|apart-walk|chain-walk|random|flat|nested N, \
    bench modes ROOTS MODES, bench library|modules FILE, or bench netlist LIBRARY NETLIST TOP";

/// How many nodes a table may have.
const MAX_NODES: u32 = 1_048_576;

/// How many supplies a table may have.
const MAX_LEVELS: u32 = 1024;

/// How many tuples of numbers a walk may remember.
const MAX_TUPLES: u32 = 1_048_576;

/// What is printed: what was counted, or the first fault of what was read.
#[derive(Drop)]
pub enum Told {
    Counts(String),
    Fault(String),
}

/// What the words ask for, which is `None` where they ask for nothing.
fn told_of<R: Files>(rt: &R, alloc: Global, words: &[&str]) -> Result<Option<Told>, AllocError> {
    match words {
        [kind, text] => match *kind {
            "library" => Ok(Some(library_told(rt, alloc, *text)?)),
            "modules" => Ok(Some(modules_told(rt, alloc, *text)?)),
            "flat" => flat_told(alloc, *text),
            "nested" => nested_told(alloc, *text),
            _ => nodes_told(alloc, words),
        },
        [kind, library, netlist, top] if *kind == "netlist" => {
            Ok(Some(design_told(rt, alloc, *library, *netlist, *top)?))
        }
        _ => nodes_told(alloc, words),
    }
}

fn main(rt: HostRuntime) -> io::Result<ExitCode> {
    let words: Vec<String> = env::args(&rt)?.skip(1).collect(rt.alloc())?;
    let mut parts = Vec::new(rt.alloc());
    for word in words.iter() {
        parts.push(word.as_str())?;
    }
    match told_of(&rt, rt.alloc(), parts.as_slice())? {
        Some(Told::Counts(text)) => {
            println!(rt; "{text}")?;
            Ok(ExitCode::SUCCESS)
        }
        Some(Told::Fault(text)) => {
            println!(rt; "{text}")?;
            Ok(ExitCode::from(2))
        }
        None => {
            eprintln!(rt; "{USAGE}")?;
            Ok(ExitCode::from(3))
        }
    }
}
