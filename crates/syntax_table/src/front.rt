//! What texts begin with.

use crate::answer::{FILE, told};
use crate::listing::put_tree;
use anyhow::{Result, bail, ensure};
use hare_lex::tokens;
use hare_parse::{Parsed, parse_expr, parse_type};
use hare_tree::{Fault, Stop, Tokens, Tree};
use std::alloc::Global;

/// The expression with which a text begins, and of how many tokens it is, as `1: (Path a)`; or its first fault.
pub(crate) fn expression(alloc: Global, source: &[u8]) -> Result<String> {
    let found = tokens_of(alloc, source)?;
    ensure!(found.len() > 0, "no tokens");
    counted(alloc, parse_expr(alloc, &found, 0))
}

/// The type with which a text begins, and of how many tokens it is; or its first fault.
pub(crate) fn type_of(alloc: Global, source: &[u8]) -> Result<String> {
    let found = tokens_of(alloc, source)?;
    ensure!(found.len() > 0, "no tokens");
    counted(alloc, parse_type(alloc, &found, 0))
}

/// The tokens of a text.
fn tokens_of(alloc: Global, source: &[u8]) -> Result<Tokens> {
    ensure!(source.len() < 4_294_967_295, "a file of 4 GiB");
    match tokens(alloc, FILE, source) {
        Ok(found) => Ok(found),
        Err(_) => bail!("a text that breaks off"),
    }
}

/// What a text begins with, and of how many tokens that is.
fn counted(alloc: Global, parsed: Result<Parsed, Stop<Fault>>) -> Result<String> {
    match parsed {
        Ok(Parsed { tree, next }) => listed(alloc, &tree, next),
        Err(Stop::Fault(fault)) => told(alloc, fault),
        Err(Stop::Memory) => bail!("out of memory"),
    }
}

/// A tree, and of how many tokens it is.
fn listed(alloc: Global, tree: &Tree, tokens: usize) -> Result<String> {
    let mut out = format!(in alloc; "{tokens}: ")?;
    put_tree(&mut out, tree)?;
    Ok(out)
}
