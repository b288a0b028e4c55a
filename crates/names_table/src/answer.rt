//! What a program comes to.

use crate::listing::{listing, put_name};
use crate::program::Program;
use anyhow::{Result, bail, ensure};
use hare_sources::read;
use hare_tree::{Fault, Stop};
use hx_base::Text;
use std::alloc::Global;

/// What the paths of a program mean, a line for each; or its first fault, as `E14 at main.ha:1:25`.
pub(crate) fn answer(alloc: Global, program: &Program) -> Result<String> {
    let (paths, sources) = (program.paths.as_slice(), &program.sources);
    ensure!(paths.len() <= 65_536, "more than 65,536 files");
    ensure!(sources.len() == paths.len(), "a file without a path");
    match read(alloc, paths, sources) {
        Ok(named) => listing(alloc, paths, &named),
        Err(Stop::Fault(fault)) => told(alloc, paths, fault),
        Err(Stop::Memory) => bail!("out of memory"),
    }
}

/// A fault with its place.
fn told(alloc: Global, paths: &[Text], fault: Fault) -> Result<String> {
    let (number, line, column) = (fault.number, fault.place.line, fault.place.column);
    let mut out = format!(in alloc; "  E{number} at ")?;
    match paths.get(fault.place.file as usize) {
        Some(path) => put_name(&mut out, path.bytes())?,
        None => out.push('?')?,
    }
    write!(out, ":{line}:{column}\n")?;
    Ok(out)
}
