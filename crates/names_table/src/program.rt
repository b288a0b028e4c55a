//! The files of a program.

use anyhow::Result;
use hare_sources::Sources;
use hx_base::{Bytes, Text};
use std::alloc::Global;

/// The files of a program, by their paths and sources.
#[derive(Drop)]
pub(crate) struct Program {
    pub paths: Vec<Text>,
    pub sources: Sources,
}

impl Program {
    /// No files.
    pub fn new(alloc: Global) -> Program {
        Program {
            paths: Vec::new(alloc),
            sources: Sources::new(alloc),
        }
    }

    /// Adds a file.
    pub fn add(&mut self, alloc: Global, path: &str, source: &str) -> Result<()> {
        let path = Text::copy(alloc, path)?;
        self.paths.push(path)?;
        let source = source.replace(alloc, '$', "\n")?;
        let mut bytes = Bytes::new(alloc);
        bytes.extend(source.as_bytes())?;
        self.sources.push(bytes)?;
        Ok(())
    }
}
