//! What the bytes of a line come to.

use crate::front::{expression, type_of};
use crate::lexed::lexed;
use crate::listing::listing;
use crate::spelled::{spelled, spelled_again};
use crate::trees::file_in;
use anyhow::{Context, Result, bail, ensure};
use hare_blocks::read;
use hare_decl::parse_source;
use hare_tree::{Fault, FileTree, Stop};
use std::alloc::Global;

/// The number of the file that each text is.
pub(crate) const FILE: u32 = 7;

/// What a text comes to: by its first byte, or else as a file.
pub(crate) fn answer(alloc: Global, text: &[u8]) -> Result<String> {
    match text {
        [b'#', text @ ..] => lexed(alloc, text),
        [b'=', text @ ..] => expression(alloc, text),
        [b':', text @ ..] => type_of(alloc, text),
        [b'>', text @ ..] => again(alloc, text),
        [b'(', ..] => trees(alloc, text),
        [b'!', text @ ..] => class(alloc, text),
        _ => whole(alloc, text),
    }
}

/// The tree of a file with these bytes as text, or its first fault, as `1:26 E8`.
fn whole(alloc: Global, source: &[u8]) -> Result<String> {
    match parsed(alloc, source)? {
        Ok(file) => listing(alloc, &file),
        Err(fault) => told(alloc, fault),
    }
}

/// The tokens that spell the tree of a file.
fn again(alloc: Global, source: &[u8]) -> Result<String> {
    match parsed(alloc, source)? {
        Ok(file) => spelled_again(alloc, source, &file),
        Err(fault) => told(alloc, fault),
    }
}

/// The tokens that spell trees, written as they are printed.
fn trees(alloc: Global, text: &[u8]) -> Result<String> {
    let text = str::from_utf8(text).context("trees that are not UTF-8")?;
    spelled(alloc, &file_in(alloc, text)?)
}

/// Whether a file is of the class that compiles.
fn class(alloc: Global, source: &[u8]) -> Result<String> {
    let answer = match read(alloc, source)? {
        Some(_) => "of the class",
        None => "not of the class",
    };
    Ok(String::from_str(alloc, answer)?)
}

/// The tree of a file, or its first fault.
fn parsed(alloc: Global, source: &[u8]) -> Result<Result<FileTree, Fault>> {
    ensure!(source.len() < 4_294_967_295, "a file of 4 GiB");
    match parse_source(alloc, FILE, source) {
        Ok(file) => {
            ensure!(file.file == FILE, "the tree of another file");
            Ok(Ok(file))
        }
        Err(Stop::Fault(fault)) => Ok(Err(fault)),
        Err(Stop::Memory) => bail!("out of memory"),
    }
}

/// A fault with its place, as `1:26 E8`.
pub(crate) fn told(alloc: Global, fault: Fault) -> Result<String> {
    let (place, number) = (fault.place, fault.number);
    ensure!(place.file == FILE, "a fault of another file");
    let (line, column) = (place.line, place.column);
    Ok(format!(in alloc; "{line}:{column} E{number}")?)
}
