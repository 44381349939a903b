//! A sink before a stream of std, as standard output.
ghost use Rattle.std.specs.Prelude.{◌≡◌, OnOk, OnErr};
ghost use Rattle.std.specs.Bool.{OnTrue};
ghost use Rattle.std.specs.Io.{WritesAtMost};
ghost use Rattle.std.specs.Io.KnownBytes.{Appends, Keeps, WriteAppends};
ghost use Rattle.pw_outer.specs.Puts.{AppendsFront, faults_after};

use crate::MOST_TRIES;
use crate::sinks::{PutFault, Sink};
use std::io;
use std::io::{ErrorKind, Write};
use std::marker::Model;

/// A sink that writes to a stream. It tells nothing of what it took.
#[derive(Drop)]
pub struct StreamSink<W> {
    writer: W,
    faults: u64,
}

impl<W> Model for StreamSink<W> {
    ghost use Rattle.pw_outer.specs.Kinds.{Stream};

    ghost Value = { Stream W };

    ghost view = { λ sink. record { writer = sink.writer; faults = sink.faults } };
}

impl<W> StreamSink<W> {
    /// A sink before a writer, which has not failed yet.
    pub fn new(writer: W) -> StreamSink<W>
        ensures { result ≡ record { writer = writer; faults = 0 } }
    {
        StreamSink { writer, faults: 0 }
    }
}

impl<W: Write> Sink for StreamSink<W> {
    ghost use Rattle.std.specs.Prelude.{None};

    ghost taken = { λ _. None };

    ghost faults = { λ sink. sink.faults };

    /// Writes all bytes and flushes the stream.
    fn put(&mut self, bytes: &[u8]) -> Result<(), PutFault>
        ensures count { self.new.faults ≡ faults_after self.old.faults result }
        ensures written { OnOk result (Appends (W.contents self.old.writer) (W.contents self.new.writer) bytes.now) }
        ensures begun { OnErr result (AppendsFront (W.contents self.old.writer) (W.contents self.new.writer) bytes.now) }
    {
        if write_whole(&mut self.writer, bytes) && flush(&mut self.writer) {
            return Ok(());
        }
        self.faults = self.faults.saturating_add(1);
        Err(PutFault::Failed)
    }
}

/// Whether all bytes could be written. Each turn takes at least one of them.
fn write_whole<W: Write>(writer: &mut W, bytes: &[u8]) -> bool
    ensures whole { OnTrue result (Appends (W.contents writer.old) (W.contents writer.new) bytes.now) }
    ensures begun { AppendsFront (W.contents writer.old) (W.contents writer.new) bytes.now }
{
    let mut rest = bytes;
    while !rest.is_empty() {
        match write_some(writer, rest) {
            Ok(0) => return false,
            Ok(count) => rest = &rest[count..],
            Err(_) => return false,
        }
    }
    true
}

/// One write, tried again where it is interrupted.
fn write_some<W: Write>(writer: &mut W, bytes: &[u8]) -> io::Result<usize>
    ensures bound { WritesAtMost result bytes.now }
    ensures bytes { WriteAppends (W.contents writer.old) (W.contents writer.new) result bytes.now }
{
    for _ in 0..MOST_TRIES {
        match writer.write(bytes) {
            Ok(count) => return Ok(count),
            Err(error) => {
                if error.kind() != ErrorKind::Interrupted {
                    return Err(error);
                }
            }
        }
    }
    Err(io::Error::from(ErrorKind::Interrupted))
}

/// Whether the stream could be flushed. A flush that is interrupted is tried again.
fn flush<W: Write>(writer: &mut W) -> bool
    ensures { Keeps (W.contents writer.old) (W.contents writer.new) }
{
    for _ in 0..MOST_TRIES {
        match writer.flush() {
            Ok(()) => return true,
            Err(error) => {
                if error.kind() != ErrorKind::Interrupted {
                    return false;
                }
            }
        }
    }
    false
}
