//! What a line comes to.

use anyhow::{Context, Result, bail};
use hare_fmt::format;
use hare_tree::{Fault, Stop};
use std::alloc::Global;

/// The most bytes that a file or a layout may have here.
const MOST: usize = 65536;

/// The line with what is found of its file before the ` ~> `.
pub(crate) fn answer(alloc: Global, line: &str) -> Result<String> {
    let (_, source) = line.split_once(" ~> ").context("a line without ~>")?;
    let found = found(alloc, source)?;
    Ok(format!(in alloc; "{found} ~> {source}")?)
}

/// The layout of a file, or its fault.
fn found(alloc: Global, source: &str) -> Result<String> {
    let lines = source.replace(alloc, '$', "\n")?.replace(alloc, '#', "\t")?;
    let src = lines.replace(alloc, '@', "\r")?;
    let bytes = src.as_bytes();
    if bytes.len() > MOST {
        bail!("the file is too long");
    }
    match format(alloc, bytes) {
        Ok(text) => laid_out(alloc, text.bytes()),
        Err(Stop::Fault(fault)) => refused(alloc, fault),
        Err(Stop::Memory) => bail!("out of memory"),
    }
}

/// A layout on one line, where it is the layout of itself.
fn laid_out(alloc: Global, text: &[u8]) -> Result<String> {
    if text.len() > MOST {
        bail!("the layout is too long");
    }
    match format(alloc, text) {
        Ok(again) if again.bytes() == text => written(alloc, text),
        _ => bail!("another layout at the second time"),
    }
}

/// A text on one line.
fn written(alloc: Global, text: &[u8]) -> Result<String> {
    let text = str::from_utf8(text)?;
    let line = text.replace(alloc, '\n', "$")?.replace(alloc, '\t', "#")?;
    Ok(line.replace(alloc, '\r', "@")?)
}

/// A fault.
fn refused(alloc: Global, fault: Fault) -> Result<String> {
    let (number, line, column) = (fault.number, fault.place.line, fault.place.column);
    Ok(format!(in alloc; "E{number} {line}:{column}")?)
}
