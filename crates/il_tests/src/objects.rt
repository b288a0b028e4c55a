//! Each object is called through its trait, and what a person expects of the rooms, the lists of failing calls and the held paths.

use hx_base::{Bytes, Text};
use hx_io::{
    Calls, Failed, FileError, Files, HostFiles, HostSink, HostSource, MemFiles, MemSink, MemSource,
    Sink, Source, SureFiles, SureSink, SureSource, write_all,
};
use std::alloc::{AllocError, Global};
use std::io;
use std::test::Fail;

fn bytes(alloc: Global, content: &str) -> Result<Bytes, AllocError> {
    let mut bytes = Bytes::new(alloc);
    bytes.extend(content.as_bytes())?;
    Ok(bytes)
}

fn calls(alloc: Global, numbers: &[u64]) -> Result<Calls, AllocError> {
    let mut calls = Calls::new(alloc);
    for number in numbers {
        calls.push(*number)?;
    }
    Ok(calls)
}

// Whether one read with a buffer of three bytes gives this text, or fails where none is wanted.
fn gives<S: Source>(source: &mut S, wanted: Option<&str>) -> bool {
    let mut buf = [0u8; 3];
    match source.read(&mut buf) {
        Ok(count) => wanted.is_some_and(|text| text.as_bytes() == &buf[..count]),
        Err(Failed) => wanted.is_none(),
    }
}

// Whether a path holds this text, or its read fails where none is wanted.
fn holds<F: Files>(alloc: Global, files: &mut F, path: &str, wanted: Option<&str>) -> bool {
    let Ok(path) = Text::copy(alloc, path) else {
        return false;
    };
    match files.read(alloc, &path) {
        Ok(content) => wanted.is_some_and(|text| text.as_bytes() == content.bytes()),
        Err(FileError::Failed) => wanted.is_none(),
        Err(FileError::Memory) => false,
    }
}

// A stream whose every call fails.
#[derive(Drop)]
struct Broken;

impl io::Read for Broken {
    fn read(&mut self, _buf: &mut [u8]) -> io::Result<usize> {
        Err(io::Error::from(io::ErrorKind::Other))
    }
}

impl io::Write for Broken {
    fn write(&mut self, _buf: &[u8]) -> io::Result<usize> {
        Err(io::Error::from(io::ErrorKind::Other))
    }

    fn flush(&mut self) -> io::Result<()> {
        Ok(())
    }
}

#[test]
fn listed_reads_fail_once(rt: HostRuntime) -> Result<(), Fail> {
    let alloc = rt.alloc();
    let mut source = MemSource::new(alloc, bytes(alloc, "abcd")?, calls(alloc, &[2, 2])?);
    for wanted in [Some("abc"), None, Some("d"), Some("")] {
        assert!(rt; gives(&mut source, wanted));
    }
    Ok(())
}

#[test]
fn other_sources_give_their_bytes(rt: HostRuntime) -> Result<(), Fail> {
    let mut sure = SureSource::new(rt.alloc(), bytes(rt.alloc(), "abcd")?);
    let mut host = HostSource::new(b"abcd".as_slice());
    for wanted in ["abc", "d", ""] {
        assert!(rt; gives(&mut sure, Some(wanted)) && gives(&mut host, Some(wanted)));
    }
    assert!(rt; gives(&mut HostSource::new(Broken), None));
    Ok(())
}

#[test]
fn listed_writes_fail_once(rt: HostRuntime) -> Result<(), Fail> {
    let alloc = rt.alloc();
    let mut sink = MemSink::new(alloc, calls(alloc, &[1, 3, 1])?, 8, 8)?;
    for wanted in [Err(Failed), Ok(0), Err(Failed), Ok(0)] {
        assert_eq!(rt; sink.write(b""), wanted);
    }
    Ok(())
}

#[test]
fn pieces_are_written_byte_by_byte_into_the_room(rt: HostRuntime) -> Result<(), Fail> {
    let mut sink = MemSink::new(rt.alloc(), Calls::new(rt.alloc()), 1, 3)?;
    let mut sure = SureSink::new(rt.alloc(), 1, 3)?;
    let mut buf = [0u8; 3];
    let mut host = HostSink::new(buf.as_mut_slice());
    for (piece, wanted) in [("ab", Ok(())), ("cd", Err(Failed)), ("", Ok(()))] {
        assert_eq!(rt; write_all(&mut sink, piece.as_bytes()), wanted);
        assert_eq!(rt; write_all(&mut sure, piece.as_bytes()), wanted);
        assert_eq!(rt; write_all(&mut host, piece.as_bytes()), wanted);
    }
    assert_eq!(rt; sink.written(), sure.written());
    assert_eq!(rt; sure.written(), b"abc".as_slice());
    assert_eq!(rt; write_all(&mut HostSink::new(Broken), b"a"), Err(Failed));
    Ok(())
}

#[test]
fn held_paths_give_what_was_added_last(rt: HostRuntime) -> Result<(), Fail> {
    let alloc = rt.alloc();
    let mut files = MemFiles::new(alloc, calls(alloc, &[3])?);
    for (path, content) in [("a", "old"), ("b", "other"), ("a", "new")] {
        files.add(Text::copy(alloc, path)?, bytes(alloc, content)?)?;
    }
    for (path, wanted) in [
        ("a", Some("new")),
        ("c", None),
        ("b", None),
        ("b", Some("other")),
    ] {
        assert!(rt; holds(alloc, &mut files, path, wanted));
    }
    Ok(())
}

#[test]
fn other_files_give_their_contents(rt: HostRuntime) -> Result<(), Fail> {
    let alloc = rt.alloc();
    let mut sure = SureFiles::new(alloc);
    sure.add(Text::copy(alloc, "a")?, bytes(alloc, "held")?)?;
    assert!(rt;
        holds(alloc, &mut sure, "a", Some("held")) && holds(alloc, &mut sure, "b", Some(""))
    );
    let mut host = HostFiles::new(&rt);
    // An endless file is cut at the limit.
    let endless = host.read(alloc, &Text::copy(alloc, "/dev/zero")?);
    assert!(rt; endless.is_ok_and(|content| content.bytes().len() == 67_108_865));
    assert!(rt; holds(alloc, &mut host, "/dev/null/none", None));
    Ok(())
}
