//! The files of a program in a line.

use anyhow::{Context, Result};
use hare_sources::Sources;
use hare_typed::Paths;
use hx_base::{Bytes, Text};
use std::alloc::Global;

/// The files of a program.
#[derive(Drop)]
pub(crate) struct Program {
    /// Their paths.
    pub(crate) names: Vec<String>,
    /// The same paths as a program has them.
    pub(crate) paths: Paths,
    /// The bytes of each.
    pub(crate) sources: Sources,
}

/// The files in the rest of a line: a source alone, or sources behind an `@` and a path each.
pub(crate) fn files(alloc: Global, line: &str) -> Result<Program> {
    let mut program = Program {
        names: Vec::new(alloc),
        paths: Paths::new(alloc),
        sources: Sources::new(alloc),
    };
    push_all(alloc, &mut program, line)?;
    Ok(program)
}

/// Puts those files behind the others.
fn push_all(alloc: Global, program: &mut Program, line: &str) -> Result<()> {
    if !line.starts_with('@') {
        return push(alloc, program, "main.ha", line);
    }
    for file in line.split('@') {
        if !file.is_empty() {
            let (path, source) = file.split_once(' ').context("a path without a source")?;
            push(alloc, program, path, source)?;
        }
    }
    Ok(())
}

/// Puts a file behind the others.
fn push(alloc: Global, program: &mut Program, path: &str, source: &str) -> Result<()> {
    program.names.push(String::from_str(alloc, path)?)?;
    program.paths.push(Text::copy(alloc, path)?)?;
    program.sources.push(bytes(alloc, source)?)?;
    Ok(())
}

/// The bytes of a source.
fn bytes(alloc: Global, source: &str) -> Result<Bytes> {
    let lines = source.replace(alloc, '$', "\n")?;
    let mut bytes = Bytes::new(alloc);
    bytes.extend(lines.as_bytes())?;
    Ok(bytes)
}
