//! What a line comes to.

use crate::files::{Program, files};
use anyhow::{Context, Result, bail};
use hare_sources::Sources;
use hare_tree::{Fault, Stop};
use hare_typed::Paths;
use hare_unit::program;
use std::alloc::Global;

/// The line with what is found of its program before the `=>`.
pub(crate) fn answer(alloc: Global, line: &str) -> Result<String> {
    let (_, sources) = line.split_once(" => ").context("a line without =>")?;
    let found = found(alloc, sources)?;
    Ok(format!(in alloc; "{found} => {sources}")?)
}

/// What is found of the program with these files.
fn found(alloc: Global, sources: &str) -> Result<String> {
    let Program {
        names,
        paths,
        sources,
    } = files(alloc, sources)?;
    let fault = first_fault(alloc, paths, &sources)?;
    told(alloc, &names, fault)
}

/// The first fault of a program, where it has one. What is checked is given up here alone, where nothing else is held.
fn first_fault(alloc: Global, paths: Paths, sources: &Sources) -> Result<Option<Fault>> {
    if sources.len() != paths.len() || paths.len() > 65536 {
        bail!("too many files");
    }
    match program(alloc, paths, sources) {
        Ok(_) => Ok(None),
        Err(Stop::Fault(fault)) => Ok(Some(fault)),
        Err(Stop::Memory) => bail!("out of memory"),
    }
}

/// A fault as a line has it, and `ok` where there is none.
fn told(alloc: Global, names: &[String], fault: Option<Fault>) -> Result<String> {
    match fault {
        None => Ok(String::from_str(alloc, "ok")?),
        Some(fault) => refused(alloc, names, fault),
    }
}

/// A fault with the path of its file.
fn refused(alloc: Global, names: &[String], fault: Fault) -> Result<String> {
    let path = names
        .get(fault.place.file as usize)
        .context("a fault in no file")?;
    let (number, line, column) = (fault.number, fault.place.line, fault.place.column);
    Ok(format!(in alloc; "E{number} {path}:{line}:{column}")?)
}
