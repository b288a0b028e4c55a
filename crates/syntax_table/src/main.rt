//! Prints what files of Hare come to: those that the arguments name, and those that stand as a line each in the standard input. What a
//! file comes to is its tree, or its first fault.
//!
//! In a line `$` and two hexadecimal digits stand for a byte, as `$0a` for a line feed. A line that begins with `%` is put together of
//! pieces, each behind a `%`, the number of times that it stands there and a blank: `%2 (%1 x%2 )` is `((x))`.
//!
//! Of a line that begins as no file does, something else is printed:
//!
//! - `#TEXT`: the tokens of the text with their places, or those before its first break and the fault;
//! - `=TEXT` and `:TEXT`: the expression or the type with which the text begins, and of how many tokens it is;
//! - `>TEXT`: the tokens that spell the tree of the file again;
//! - `(TREES`: whether trees that are written as they are printed are those of a file, and the tokens that spell them;
//! - `!TEXT`: whether the file is of the class that compiles.
#![tactic(auto)]

mod answer;
mod front;
mod lexed;
mod listing;
mod spelled;
mod text;
mod trees;

use crate::answer::answer;
use crate::text::text_of;
use anyhow::{Context, Result};
use std::{env, fs};

fn main(rt: HostRuntime) -> Result<()> {
    for path in env::args(&rt)?.skip(1) {
        print_file(&rt, path.as_str())?;
    }
    for row in rt.lines(rt.alloc()) {
        let row = row?;
        print_row(&rt, row.as_str())?;
    }
    Ok(())
}

/// Prints what a file comes to.
fn print_file(rt: &HostRuntime, path: &str) -> Result<()> {
    let source = fs::read(rt, path).context(format_args!("reading {path}"))?;
    let answer = answer(rt.alloc(), source.as_slice())?;
    println!(rt; "{path}: {answer}")?;
    Ok(())
}

/// Prints a line, and what it comes to.
fn print_row(rt: &HostRuntime, row: &str) -> Result<()> {
    let source = text_of(rt.alloc(), row)?;
    let answer = answer(rt.alloc(), source.as_slice())?;
    println!(rt; "{row}\n  {answer}")?;
    Ok(())
}
