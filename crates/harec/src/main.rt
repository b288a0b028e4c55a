//! The program: the host's files and streams behind the top call.
#![tactic(auto)]

use harec_core::{Answer, harec, status};
use hx_base::{Bytes, Text};
use hx_io::{HostFiles, HostSink, HostSource, write_all};
use std::alloc::{AllocError, Global};
use std::env;
use std::io::ErrorKind;
use std::process::ExitCode;

/// The byte that new memory and unassigned temporaries of a run hold. A compiled program may not rest on it, and a byte with bits of
/// both values shows more mistakes than 0.
const FILL: u8 = 165;

fn main(rt: HostRuntime) -> ExitCode {
    let answer = match words(rt.alloc(), &rt) {
        Ok(Some(words)) => answer_to(&rt, words.as_slice()),
        // Words that are not text are no command, as no words are.
        Ok(None) => answer_to(&rt, &[]),
        Err(_) => out_of_memory(&rt),
    };
    ExitCode::from(status(&answer))
}

// The words behind the program's name. None: a word is not UTF-8, and so the words are no command.
fn words(alloc: Global, rt: &HostRuntime) -> Result<Option<Vec<Text>>, AllocError> {
    let args = match env::args(rt) {
        Ok(args) => args,
        Err(e) if e.kind() == ErrorKind::OutOfMemory => return Err(AllocError),
        Err(_) => return Ok(None),
    };
    let mut words = Vec::new(alloc);
    for arg in args.skip(1) {
        words.push(Text::copy(alloc, arg.as_str())?)?;
    }
    Ok(Some(words))
}

// What the top call answers over the host's files and streams.
fn answer_to(rt: &HostRuntime, words: &[Text]) -> Answer {
    let alloc = rt.alloc();
    let mut files = HostFiles::new(rt);
    let mut input = HostSource::new(rt.stdin());
    let mut out = HostSink::new(rt.stdout());
    let mut log = HostSink::new(rt.stderr());
    let mut text = Bytes::new(alloc);
    harec(
        alloc, words, &mut files, &mut input, &mut out, &mut log, FILL, &mut text,
    )
}

// The answer where there is no memory for the words, with its line.
fn out_of_memory(rt: &HostRuntime) -> Answer {
    match write_all(&mut HostSink::new(rt.stderr()), b"harec: memory\n") {
        Ok(()) => Answer::Memory,
        Err(_) => Answer::WriteFault,
    }
}
