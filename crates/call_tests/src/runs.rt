//! Runs over shelves and sinks in memory that fail. Each way to end is among the cases of whole runs in the folder tests/ of
//! the repository.
ghost use Rattle.std.specs.Prelude.{◌≡◌, ◌==◌, true, map, IfOk};
ghost use Rattle.list_defs.specs.Members.{all_differ, same_name};

use pw_defs::{Bytes, List, Name, Status};
use pw_outer::{MemShelf, MemSink, Shelf, Sink, SureShelf, SureSink};
use std::alloc::{AllocError, Global};
use std::process::Abort;
use std::test::Fail;
use upf_sign::run;

const CELLS: &[u8] = b"library(cells) {\n\
cell(BUF) {\n\
pin(A) { direction : input; }\n\
pin(Y) { direction : output; }\n\
}\n\
}\n";

const NETLIST: &[u8] = b"module blka(input x, output y);\n\
BUF o(.A(x), .Y(y));\n\
endmodule\n\
module blkb(input a, output z);\n\
BUF i(.A(a), .Y(z));\n\
endmodule\n\
module top(input x);\n\
wire n;\n\
blka u_a(.x(x), .y(n));\n\
blkb u_b(.a(n), .z());\n\
endmodule\n";

const SCRIPT: &[u8] = b"create_supply_net VA\n\
create_supply_net VB\n\
create_supply_net VSS\n\
add_supply_state VA -state {off off} -state {on 0.8}\n\
add_supply_state VB -state {on 0.8}\n\
add_supply_state VSS -state {gnd 0}\n\
create_supply_set SA -function {power VA} -function {ground VSS}\n\
create_supply_set SB -function {power VB} -function {ground VSS}\n\
create_power_domain PT -elements {.} -supply {primary SB}\n\
create_power_domain PA -elements {u_a} -supply {primary SA}\n\
create_power_domain PB -elements {u_b} -supply {primary SB}\n";

const FOUND: &[u8] = b"upfsign report 1\n\
top top\n\
chains 2\n\
passed 0\n\
ISO_MISSING u_b/i/A from u_a/o/Y\n\
\x20\x20state VA=off VB=0.800000 VSS=0.000000\n\
findings 1\n";

const WORDS: [&str; 9] = [
    "flat",
    "-lib",
    "cells.lib",
    "-net",
    "ab.v",
    "-upf",
    "base.upf",
    "-top",
    "top",
];

fn file(alloc: Global, name: &str, text: &[u8]) -> Result<(Name, Bytes), AllocError>
    ensures { IfOk result (λ file. file.0 ≡ name.now) }
{
    let name = Name::from_slice(alloc, name.as_bytes())?;
    Ok((name, Bytes::from_slice(alloc, text)?))
}

/// The files of the job.
fn files(alloc: Global) -> Result<List<(Name, Bytes)>, AllocError>
    ensures { IfOk result (λ files. all_differ same_name (map (λ file. file.0) files) ≡ true) }
{
    let mut files = List::new(alloc);
    files.push(file(alloc, "cells.lib", CELLS)?)?;
    files.push(file(alloc, "ab.v", NETLIST)?)?;
    files.push(file(alloc, "base.upf", SCRIPT)?)?;
    Ok(files)
}

fn strings(alloc: Global, words: &[&str]) -> Result<Vec<String>, AllocError> {
    let mut strings = Vec::new(alloc);
    for word in words {
        strings.push(String::from_str(alloc, word)?)?;
    }
    Ok(strings)
}

/// One call that fails, after so many bytes.
fn one_failure(alloc: Global, most: u32) -> Result<List<(u32, u32)>, AllocError>
    ensures { IfOk result (λ failing. all_differ (λ call other. call == other) (map (λ listed. listed.0) failing) ≡ true) }
{
    List::from_slice(alloc, &[(0, most)])
}

/// Runs the job, and looks whether it ends for a cause outside.
fn expect_outside<S: Shelf, K: Sink>(
    rt: &impl Abort,
    alloc: Global,
    shelf: &mut S,
    out: &mut K,
) -> Result<(), Fail> {
    let words = strings(alloc, &WORDS)?;
    let mut told = SureSink::new(alloc);
    let ended = run(alloc, words.as_slice(), shelf, out, &mut told);
    assert_eq!(rt; ended, Status::Outside);
    assert_eq!(rt; told.taken(), b"upfsign: outside\n".as_slice());
    Ok(())
}

#[test]
fn output_that_fails_after_each_byte(rt: HostRuntime) -> Result<(), Fail> {
    let alloc = rt.alloc();
    for most in 0..FOUND.len() + 1 {
        let mut shelf = SureShelf::new(alloc, files(alloc)?);
        let mut out = MemSink::new(alloc, one_failure(alloc, most as u32)?);
        expect_outside(&rt, alloc, &mut shelf, &mut out)?;
        assert_eq!(rt; out.taken(), &FOUND[..most]);
    }
    Ok(())
}

#[test]
fn shelf_that_fails_at_each_call(rt: HostRuntime) -> Result<(), Fail> {
    let alloc = rt.alloc();
    for call in 0..3 {
        let failing = List::from_slice(alloc, &[call])?;
        let mut shelf = MemShelf::new(alloc, files(alloc)?, failing);
        let mut out = SureSink::new(alloc);
        expect_outside(&rt, alloc, &mut shelf, &mut out)?;
        assert_eq!(rt; out.taken(), b"".as_slice());
    }
    Ok(())
}

#[test]
fn errors_that_fail_after_each_byte(rt: HostRuntime) -> Result<(), Fail> {
    let alloc = rt.alloc();
    let usage = b"upfsign: usage\n";
    for most in 0..usage.len() + 1 {
        let mut shelf = SureShelf::new(alloc, files(alloc)?);
        let mut out = SureSink::new(alloc);
        let mut err = MemSink::new(alloc, one_failure(alloc, most as u32)?);
        let ended = run(alloc, &[], &mut shelf, &mut out, &mut err);
        assert_eq!(rt; ended, Status::Usage);
        assert_eq!(rt; err.taken(), &usage[..most]);
    }
    Ok(())
}
