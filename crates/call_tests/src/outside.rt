//! Each kind of shelf and sink, run once through its trait.
ghost use Rattle.std.specs.Prelude.{◌≡◌, ◌==◌, true, map, IfOk};
ghost use Rattle.list_defs.specs.Members.{all_differ, same_name};

use plain_lists::{Bytes, List, Name};
use pw_outer::{
    DirShelf, MemShelf, MemSink, PutFault, Shelf, ShelfFault, Sink, StreamSink, SureShelf, SureSink,
};
use std::alloc::{AllocError, Global};
use std::io::{ErrorKind, Write};
use std::process::Abort;
use std::test::Fail;
use std::{env, fs, io};

/// Two files, of which one is empty.
fn two_files(alloc: Global) -> Result<List<(Name, Bytes)>, AllocError>
    ensures { IfOk result (λ files. all_differ same_name (map (λ file. file.0) files) ≡ true) }
{
    let mut files = List::new(alloc);
    let name = Name::from_slice(alloc, b"a.v")?;
    let text = Bytes::from_slice(alloc, b"module a;")?;
    files.push((name, text))?;
    let name = Name::from_slice(alloc, b"empty")?;
    files.push((name, Bytes::new(alloc)))?;
    Ok(files)
}

/// Fetches a file and looks at the answer and at the bytes that are left.
fn expect_fetch<S: Shelf>(
    rt: &impl Abort,
    alloc: Global,
    shelf: &mut S,
    name: &str,
    answer: Result<(), ShelfFault>,
    left: &[u8],
) {
    let mut into = Vec::new(alloc);
    assert_eq!(rt; shelf.fetch(name, &mut into), answer, "fetching {name}");
    assert_eq!(rt; into.as_slice(), left, "fetching {name}");
}

/// Fetches a file and looks at the answer and at how many bytes are left.
fn expect_length<S: Shelf>(
    rt: &impl Abort,
    alloc: Global,
    shelf: &mut S,
    name: &str,
    answer: Result<(), ShelfFault>,
    length: usize,
) {
    let mut into = Vec::new(alloc);
    assert_eq!(rt; shelf.fetch(name, &mut into), answer, "fetching {name}");
    assert_eq!(rt; into.len(), length, "fetching {name}");
}

#[test]
fn sure_shelf_gives_what_it_holds(rt: HostRuntime) -> Result<(), Fail> {
    let alloc = rt.alloc();
    let mut shelf = SureShelf::new(alloc, two_files(alloc)?);
    expect_fetch(&rt, alloc, &mut shelf, "a.v", Ok(()), b"module a;");
    expect_fetch(&rt, alloc, &mut shelf, "empty", Ok(()), b"");
    expect_fetch(&rt, alloc, &mut shelf, "b.v", Err(ShelfFault::Absent), b"");
    Ok(())
}

#[test]
fn mem_shelf_fails_at_the_listed_calls(rt: HostRuntime) -> Result<(), Fail> {
    let alloc = rt.alloc();
    let failing = List::from_slice(alloc, &[3, 1])?;
    let mut shelf = MemShelf::new(alloc, two_files(alloc)?, failing);
    expect_fetch(&rt, alloc, &mut shelf, "a.v", Ok(()), b"module a;");
    expect_fetch(&rt, alloc, &mut shelf, "a.v", Err(ShelfFault::Failed), b"");
    expect_fetch(&rt, alloc, &mut shelf, "b.v", Err(ShelfFault::Absent), b"");
    expect_fetch(&rt, alloc, &mut shelf, "b.v", Err(ShelfFault::Failed), b"");
    expect_fetch(&rt, alloc, &mut shelf, "a.v", Ok(()), b"module a;");
    Ok(())
}

/// Puts each text in turn and looks at the answers.
fn expect_puts<K: Sink>(rt: &impl Abort, sink: &mut K, puts: &[(&[u8], Result<(), PutFault>)]) {
    for (bytes, answer) in puts {
        assert_eq!(rt; sink.put(*bytes), *answer, "putting {bytes:?}");
    }
}

#[test]
fn sure_sink_takes_all(rt: HostRuntime) -> Result<(), Fail> {
    let mut sink = SureSink::new(rt.alloc());
    expect_puts(
        &rt,
        &mut sink,
        &[(b"report ", Ok(())), (b"", Ok(())), (b"1\n", Ok(()))],
    );
    assert_eq!(rt; sink.taken(), b"report 1\n".as_slice());
    Ok(())
}

/// Failures of the second call after four bytes, of the third before any, and of the fourth after all.
fn three_failures(alloc: Global) -> Result<List<(u32, u32)>, AllocError>
    ensures { IfOk result (λ failing. all_differ (λ call other. call == other) (map (λ listed. listed.0) failing) ≡ true) }
{
    List::from_slice(alloc, &[(1, 4), (3, 100), (2, 0)])
}

#[test]
fn mem_sink_fails_after_the_stated_bytes(rt: HostRuntime) -> Result<(), Fail> {
    let alloc = rt.alloc();
    let mut sink = MemSink::new(alloc, three_failures(alloc)?);
    let failed = Err(PutFault::Failed);
    expect_puts(
        &rt,
        &mut sink,
        &[
            (b"abcdef", Ok(())),
            (b"ghijkl", failed),
            (b"mn", failed),
            (b"op", failed),
            (b"q", Ok(())),
        ],
    );
    assert_eq!(rt; sink.taken(), b"abcdefghijopq".as_slice());
    Ok(())
}

/// A writer that takes at most so many bytes at a time, and is interrupted before each write.
#[derive(Drop)]
struct Slow<'a> {
    taken: &'a mut Vec<u8>,
    most: usize,
    interrupted: bool,
}

impl<'a> Write for Slow<'a> {
    fn write(&mut self, bytes: &[u8]) -> io::Result<usize> {
        self.interrupted = !self.interrupted;
        if self.interrupted {
            return Err(io::Error::from(ErrorKind::Interrupted));
        }
        let count = bytes.len().min(self.most);
        self.taken.extend_from_slice(&bytes[..count])?;
        Ok(count)
    }

    fn flush(&mut self) -> io::Result<()> {
        Ok(())
    }
}

#[test]
fn stream_sink_writes_all(rt: HostRuntime) -> Result<(), Fail> {
    let alloc = rt.alloc();
    let failed = Err(PutFault::Failed);
    let mut written = Vec::new(alloc);
    expect_puts(
        &rt,
        &mut StreamSink::new(&mut written),
        &[(b"report 1\n", Ok(())), (b"top\n", Ok(()))],
    );
    assert_eq!(rt; written.as_slice(), b"report 1\ntop\n".as_slice());
    for (most, answer, front) in [
        (3, Ok(()), b"report 1\n".as_slice()),
        (0, failed, b"".as_slice()),
    ] {
        let mut taken = Vec::new(alloc);
        let writer = Slow {
            taken: &mut taken,
            most,
            interrupted: false,
        };
        expect_puts(
            &rt,
            &mut StreamSink::new(writer),
            &[(b"report 1\n", answer)],
        );
        assert_eq!(rt; taken.as_slice(), front, "{most} bytes at a time");
    }
    Ok(())
}

#[test]
fn dir_shelf_reads_a_folder(rt: HostRuntime) -> Result<(), Fail> {
    let alloc = rt.alloc();
    fs::create_dir_all(&rt, "shelf/below")?;
    fs::write(&rt, "shelf/a.v", b"module a;")?;
    fs::write(&rt, "shelf/below/empty", b"")?;
    fs::create(&rt, "shelf/long")?.set_len(67_108_864)?;
    fs::create(&rt, "shelf/longer")?.set_len(67_108_865)?;
    let mut shelf = DirShelf::new(&rt, alloc, "shelf").map_err(|_| "no memory")?;
    expect_fetch(&rt, alloc, &mut shelf, "a.v", Ok(()), b"module a;");
    expect_fetch(&rt, alloc, &mut shelf, "below/empty", Ok(()), b"");
    expect_fetch(&rt, alloc, &mut shelf, "b.v", Err(ShelfFault::Absent), b"");
    expect_fetch(
        &rt,
        alloc,
        &mut shelf,
        "below",
        Err(ShelfFault::Failed),
        b"",
    );
    expect_length(&rt, alloc, &mut shelf, "long", Ok(()), 67_108_864);
    expect_length(
        &rt,
        alloc,
        &mut shelf,
        "longer",
        Err(ShelfFault::TooLong),
        67_108_865,
    );
    let folder = env::current_dir(&rt)?;
    let path = folder.as_path().join(alloc, "shelf/a.v")?;
    let mut other = DirShelf::new(&rt, alloc, "elsewhere").map_err(|_| "no memory")?;
    expect_fetch(&rt, alloc, &mut other, "a.v", Err(ShelfFault::Absent), b"");
    expect_fetch(&rt, alloc, &mut other, path.as_str(), Ok(()), b"module a;");
    fs::remove_dir_all(&rt, "shelf")?;
    Ok(())
}
