//! What a line comes to.

use crate::asked::Asked;
use crate::cells::{put_cells, put_objects, put_tag};
use crate::declared::{declared, type_of};
use crate::rounds::in_rounds;
use anyhow::{Context, Result, bail};
use hare_sources::Sources;
use hare_tree::{Fault, Stop};
use hare_typed::{Const, Paths, Program};
use hare_unit::program;
use hx_base::{Bytes, Text};
use std::alloc::Global;

/// The function without which no program is whole.
const MAIN: &str = " export fn main() void = {};";

/// The line with what is found of its program before the `=>`.
pub(crate) fn answer(alloc: Global, asked: Asked, line: &str) -> Result<String> {
    let (_, source) = line.split_once(" => ").context("a line without =>")?;
    let found = found(alloc, asked, source)?;
    match asked {
        Asked::Value => Ok(format!(in alloc; "{found} => {source}")?),
        Asked::Rounds(_, _) => Ok(found),
    }
}

/// What is found of the program with this file.
fn found(alloc: Global, asked: Asked, source: &str) -> Result<String> {
    let sources = sources(alloc, source)?;
    let paths = paths(alloc)?;
    found_in(alloc, asked, paths, &sources)
}

/// The one source, and the function without which no program is whole.
fn sources(alloc: Global, source: &str) -> Result<Sources> {
    let mut sources = Sources::new(alloc);
    sources.push(bytes(alloc, source)?)?;
    Ok(sources)
}

/// The bytes of that source.
fn bytes(alloc: Global, source: &str) -> Result<Bytes> {
    let mut bytes = Bytes::new(alloc);
    bytes.extend(source.as_bytes())?;
    bytes.extend(MAIN.as_bytes())?;
    Ok(bytes)
}

/// The path of the one file.
fn paths(alloc: Global) -> Result<Paths> {
    let mut paths = Paths::new(alloc);
    paths.push(Text::copy(alloc, "main.ha")?)?;
    Ok(paths)
}

/// What is found of a program of one file. What is checked is given up here alone.
fn found_in(alloc: Global, asked: Asked, paths: Paths, sources: &Sources) -> Result<String> {
    if sources.len() != paths.len() || paths.len() > 1 {
        bail!("more than one file");
    }
    match program(alloc, paths, sources) {
        Ok(checked) => asked_in(alloc, asked, &checked.program),
        Err(Stop::Fault(fault)) => refused(alloc, fault),
        Err(Stop::Memory) => bail!("out of memory"),
    }
}

/// What is asked of a program.
fn asked_in(alloc: Global, asked: Asked, program: &Program) -> Result<String> {
    match asked {
        Asked::Value => constant(alloc, program),
        Asked::Rounds(measured, rounds) => {
            let found = in_rounds(alloc, program, measured, rounds)?;
            Ok(format!(in alloc; "{found}")?)
        }
    }
}

/// A fault with its place.
fn refused(alloc: Global, fault: Fault) -> Result<String> {
    let (number, line, column) = (fault.number, fault.place.line, fault.place.column);
    Ok(format!(in alloc; "E{number} {line}:{column}")?)
}

/// The constant of the declaration `x`. Where it is of a union, the type of its member stands in the place of the tag.
fn constant(alloc: Global, program: &Program) -> Result<String> {
    let tree = declared(program).context("no declaration x")?;
    let value = tree.kids.get(3).context("no value")?;
    let Const::Known { cells, objects } = &value.value else {
        bail!("no constant");
    };
    let mut out = String::new(alloc);
    let from = match type_of(tree) {
        Some(t) => put_tag(&mut out, &program.types, t, cells)?,
        None => 0,
    };
    put_cells(&mut out, cells, from)?;
    put_objects(&mut out, objects)?;
    Ok(out)
}
