//! A shelf before a folder of the system.
ghost use Rattle.std.specs.Prelude.{◌≡◌, ◌≢◌, [], Some, Err, IfOk, IfSome};
ghost use Rattle.std.specs.Io.{ReadsAtMost};
ghost use Rattle.std.specs.Io.KnownBytes.{ReadConsumes};
ghost use Rattle.pw_outer.specs.Counts.{NoneFalls};
ghost use Rattle.pw_outer.specs.Fetches.{Fetched, HasFetchCause, LeavesBytes, counts_after};

use crate::MOST_TRIES;
use crate::shelves::{LONGEST_FILE, Shelf, ShelfFault};
use plain_lists::Memory;
use std::alloc::Global;
use std::io::{ErrorKind, Read};
use std::marker::Model;
use std::path::Path;
use std::rt::Files;
use std::{fs, io};

/// How many bytes are read at once.
const CHUNK: usize = 8192;

/// A shelf of the files of a folder. It tells nothing of what they hold.
#[derive(Drop)]
pub struct DirShelf<'a, R> {
    rt: &'a R,
    alloc: Global,
    dir: String,
    faults: u64,
    misses: u64,
    overs: u64,
}

impl<'a, R> Model for DirShelf<'a, R> {
    ghost use Rattle.std.specs.Prelude.{string_bytes};
    ghost use Rattle.pw_outer.specs.Kinds.{Folder};

    ghost Value = { Folder };

    ghost view = { λ shelf. record {
      dir = string_bytes shelf.dir;
      counts = record { faults = shelf.faults; misses = shelf.misses; overs = shelf.overs };
    } };
}

impl<'a, R: Files> DirShelf<'a, R> {
    /// A shelf of the files below `dir`. A name that begins with `/` is a path of its own.
    pub fn new(rt: &'a R, alloc: Global, dir: &str) -> Result<DirShelf<'a, R>, Memory>
        ensures { IfOk result (λ shelf. shelf ≡ record { dir = dir.now; counts = record { faults = 0; misses = 0; overs = 0 } }) }
    {
        let dir = String::from_str(alloc, dir)?;
        Ok(DirShelf {
            rt,
            alloc,
            dir,
            faults: 0,
            misses: 0,
            overs: 0,
        })
    }
}

impl<'a, R: Files> Shelf for DirShelf<'a, R> {
    ghost use Rattle.std.specs.Prelude.{None};

    ghost holds = { λ _. None };

    ghost counts = { λ shelf. shelf.counts };

    /// Reads the file at the name joined to the folder by `/`.
    ///
    /// What cannot be opened or read, as a folder, is `Failed`; `Absent` is what the system says that it did not find.
    fn fetch(&mut self, name: &str, into: &mut Vec<u8>) -> Result<(), ShelfFault>
        requires { into.old.items ≡ [] }
        ensures counts { NoneFalls self.old.counts self.new.counts }
        ensures cause { HasFetchCause self.old.counts self.new.counts result }
        ensures counted { self.new ≡ record self.old { counts = counts_after self.old.counts result } }
        ensures left { LeavesBytes result into.new.items }
    {
        match read_named(self.rt, self.alloc, self.dir.as_str(), name, into) {
            Ok(()) => Ok(()),
            Err(ShelfFault::Absent) => {
                self.misses = self.misses.saturating_add(1);
                Err(ShelfFault::Absent)
            }
            Err(ShelfFault::TooLong) => {
                self.overs = self.overs.saturating_add(1);
                Err(ShelfFault::TooLong)
            }
            Err(ShelfFault::Failed) => {
                self.faults = self.faults.saturating_add(1);
                Err(ShelfFault::Failed)
            }
            Err(ShelfFault::Memory) => Err(ShelfFault::Memory),
        }
    }
}

/// Appends the bytes of the file of this name in `dir` to `into`.
fn read_named<R: Files>(
    rt: &R,
    alloc: Global,
    dir: &str,
    name: &str,
    into: &mut Vec<u8>,
) -> Result<(), ShelfFault>
    requires { into.old.items ≡ [] }
    ensures { LeavesBytes result into.new.items }
{
    let path = Path::new(dir).join(alloc, name)?;
    match fs::open(rt, path.as_path()) {
        Ok(mut file) => read_whole(&mut file, into),
        Err(error) => {
            if error.kind() == ErrorKind::NotFound {
                Err(ShelfFault::Absent)
            } else {
                Err(ShelfFault::Failed)
            }
        }
    }
}

/// Appends the bytes that a reader has left, and no more than one above `LONGEST_FILE`. Each turn takes at least one.
fn read_whole<F: Read>(file: &mut F, into: &mut Vec<u8>) -> Result<(), ShelfFault>
    requires { into.old.items ≡ [] }
    ensures found { result ≢ Err ShelfFault.Absent }
    ensures left { LeavesBytes result into.new.items }
    ensures told { IfSome (F.remaining file.old) (λ bytes. Fetched (Some bytes) result into.new.items) }
{
    let mut buffer = [0; CHUNK];
    while into.len() <= LONGEST_FILE {
        let most = CHUNK.min(LONGEST_FILE + 1 - into.len());
        match read_some(file, &mut buffer[..most]) {
            Ok(0) => return Ok(()),
            Ok(count) => into.extend_from_slice(&buffer[..count])?,
            Err(_) => return Err(ShelfFault::Failed),
        }
    }
    Err(ShelfFault::TooLong)
}

/// One read, tried again where it is interrupted.
fn read_some<F: Read>(file: &mut F, buffer: &mut [u8]) -> io::Result<usize>
    ensures bound { ReadsAtMost result buffer.new }
    ensures bytes { ReadConsumes (F.remaining file.old) (F.remaining file.new) result buffer.new }
{
    for _ in 0..MOST_TRIES {
        match file.read(buffer) {
            Ok(count) => return Ok(count),
            Err(error) => {
                if error.kind() != ErrorKind::Interrupted {
                    return Err(error);
                }
            }
        }
    }
    Err(io::Error::from(ErrorKind::Interrupted))
}

#[cfg(test)]
mod tests {
    use super::*;
    use std::test::Fail;

    /// A reader that gives at most three bytes at a time, is interrupted before each read, and may fail at the end.
    #[derive(Drop)]
    struct Slow<'a> {
        left: &'a [u8],
        fails: bool,
        interrupted: bool,
    }

    impl<'a> Read for Slow<'a> {
        fn read(&mut self, buffer: &mut [u8]) -> io::Result<usize> {
            self.interrupted = !self.interrupted;
            if self.interrupted {
                return Err(io::Error::from(ErrorKind::Interrupted));
            }
            if self.left.is_empty() && self.fails {
                return Err(io::Error::from(ErrorKind::Other));
            }
            let count = self.left.len().min(buffer.len()).min(3);
            let (front, rest) = self.left.split_at(count);
            buffer[..count].copy_from_slice(front);
            self.left = rest;
            Ok(count)
        }
    }

    #[test]
    fn reads_through_short_reads(rt: HostRuntime) -> Result<(), Fail> {
        for (fails, answer) in [(false, Ok(())), (true, Err(ShelfFault::Failed))] {
            let mut reader = Slow {
                left: b"module a;\nendmodule\n",
                fails,
                interrupted: false,
            };
            let mut into = Vec::new(rt.alloc());
            assert_eq!(rt; read_whole(&mut reader, &mut into), answer);
            assert_eq!(rt; into.as_slice(), b"module a;\nendmodule\n".as_slice());
        }
        Ok(())
    }
}
