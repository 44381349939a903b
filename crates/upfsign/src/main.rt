//! The program `upfsign`: its arguments, the current folder and the standard streams for a run.
#![tactic(auto)]

use pw_defs::{Memory, Status};
use pw_outer::{DirShelf, StreamSink};
use std::env;
use std::io::ErrorKind;
use std::process::ExitCode;
use upf_sign::run;

fn main(rt: HostRuntime) -> ExitCode {
    let status = match run_here(&rt) {
        Ok(status) => status,
        Err(Memory) => Status::Memory,
    };
    ExitCode::from(status.code())
}

/// Runs the program on its arguments.
fn run_here(rt: &HostRuntime) -> Result<Status, Memory> {
    let words = words_of(rt)?;
    let mut shelf = DirShelf::new(rt, rt.alloc(), ".")?;
    let mut out = StreamSink::new(rt.stdout());
    let mut err = StreamSink::new(rt.stderr());
    Ok(run(rt.alloc(), words.as_slice(), &mut shelf, &mut out, &mut err))
}

/// The arguments without the program's name. Where one isn't UTF-8 there are none, which is no job.
fn words_of(rt: &HostRuntime) -> Result<Vec<String>, Memory> {
    match env::args(rt) {
        Ok(words) => Ok(words.skip(1).collect(rt.alloc())?),
        Err(error) => {
            if error.kind() == ErrorKind::OutOfMemory {
                return Err(Memory);
            }
            Ok(Vec::new(rt.alloc()))
        }
    }
}
