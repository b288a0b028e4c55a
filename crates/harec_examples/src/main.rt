//! Does what `harec` does on each line of the standard input, of which the words stand with a blank between them, and which has none where it is empty: the files are those of
//! the folder examples/, and the input is the same two lines for each. Of each line is printed the line as one would type it, what `harec`
//! writes to its output and to its log, and the status.
#![tactic(auto)]

use anyhow::Result;
use harec_core::{harec, status};
use hx_base::{Bytes, Text};
use hx_io::{HostFiles, HostSink, SureSource};
use std::alloc::Global;

/// The byte that new memory and unassigned temporaries of a run hold.
const FILL: u8 = 165;

/// What is read of the input.
const INPUT: &[u8] = b"to be or\nnot to be\n";

fn main(rt: HostRuntime) -> Result<()> {
    let alloc = rt.alloc();
    for line in rt.lines(alloc) {
        let line = line?;
        println!(rt; "$ harec {line}")?;
        let status = status_of(&rt, line.as_str())?;
        println!(rt; "{status}")?;
    }
    Ok(())
}

/// The status with which `harec` ends on these words, over the files of the folder, the one input, and the standard output for output and
/// log.
fn status_of(rt: &HostRuntime, line: &str) -> Result<u8> {
    let alloc = rt.alloc();
    let words = words(alloc, line)?;
    let mut files = HostFiles::new(rt);
    let mut content = Bytes::new(alloc);
    content.extend(INPUT)?;
    let mut input = SureSource::new(alloc, content);
    let mut out = HostSink::new(rt.stdout());
    let mut log = HostSink::new(rt.stdout());
    let mut text = Bytes::new(alloc);
    let answer = harec(
        alloc,
        words.as_slice(),
        &mut files,
        &mut input,
        &mut out,
        &mut log,
        FILL,
        &mut text,
    );
    Ok(status(&answer))
}

/// The words of a line.
fn words(alloc: Global, line: &str) -> Result<Vec<Text>> {
    let mut words = Vec::new(alloc);
    if line.is_empty() {
        return Ok(words);
    }
    for word in line.split(' ') {
        words.push(Text::copy(alloc, word)?)?;
    }
    Ok(words)
}
