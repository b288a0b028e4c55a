//! A program of many small functions.

use anyhow::Result;
use hare_sources::Sources;
use hx_base::{Bytes, Text};
use std::alloc::Global;

/// The files of a program, by their paths and sources, and how many bytes the sources have together.
#[derive(Drop)]
pub(crate) struct Program {
    pub paths: Vec<Text>,
    pub sources: Sources,
    pub bytes: usize,
}

impl Program {
    /// A program of so many files of so many functions.
    pub(crate) fn of(alloc: Global, files: u32, functions: u32) -> Result<Program> {
        let mut program = Program {
            paths: Vec::new(alloc),
            sources: Sources::new(alloc),
            bytes: 0,
        };
        for file in 0..files {
            add(alloc, &mut program, file, functions)?;
        }
        Ok(program)
    }
}

/// Adds a file of so many functions.
fn add(alloc: Global, program: &mut Program, file: u32, functions: u32) -> Result<()> {
    program.paths.push(path(alloc, file)?)?;
    let source = source(alloc, file, functions)?;
    program.bytes = program.bytes.saturating_add(source.bytes().len());
    program.sources.push(source)?;
    Ok(())
}

/// The path of one of the files.
fn path(alloc: Global, file: u32) -> Result<Text> {
    let path = format!(in alloc; "f_{file}.ha")?;
    Ok(Text::copy(alloc, path.as_str())?)
}

/// The source of one of the files.
fn source(alloc: Global, file: u32, functions: u32) -> Result<Bytes> {
    let mut source = Bytes::new(alloc);
    for n in 0..functions {
        let line = format!(in alloc; "fn f_{file}_{n}(a: u32) u32 = a * 613;\n")?;
        source.extend(line.as_bytes())?;
    }
    Ok(source)
}
