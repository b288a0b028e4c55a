//! What the command line asks for.

use anyhow::{Context, Result, bail};
use std::env::{self, Args};

const USAGE: &str = "usage: const_table [constants|tests ROUNDS]";

/// What is measured.
#[derive(Clone, Copy)]
pub(crate) enum Measured {
    /// Working out the constants of all globals and defs.
    Constants,
    /// Looking whether they can be told, which is done first of all there.
    Tests,
}

/// What is asked of each line.
#[derive(Clone, Copy)]
pub(crate) enum Asked {
    /// The constant of the declaration `x`.
    Value,
    /// That something is done so many times.
    Rounds(Measured, u32),
}

/// What the command line asks for.
pub(crate) fn asked_of(rt: &HostRuntime) -> Result<Asked> {
    let mut words = env::args(rt)?;
    read(&mut words)
}

/// The same, by the words of the command line.
fn read(words: &mut Args) -> Result<Asked> {
    let Some(word) = words.nth(1) else {
        return Ok(Asked::Value);
    };
    let measured = match word.as_str() {
        "constants" => Measured::Constants,
        "tests" => Measured::Tests,
        _ => bail!("{USAGE}"),
    };
    let rounds = words.next().context(USAGE)?;
    let rounds = rounds
        .as_str()
        .parse::<u32>()
        .context("ROUNDS is a number below 2^32")?;
    Ok(Asked::Rounds(measured, rounds))
}
