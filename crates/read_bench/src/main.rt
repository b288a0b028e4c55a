//! Reads a text again and again, so that the time of that can be measured: `read_bench CALL COPIES ROUNDS FILE`. The text is that of the
//! file, so many times behind itself. In each round it is read by the call, `tokens` or `parse`, and what comes of it is given up.
#![tactic(auto)]

mod reading;

use crate::reading::{parsed, repeated, tokenised};
use anyhow::{Context, Result, bail, ensure};
use std::{env, fs};

const USAGE: &str = "usage: read_bench tokens|parse COPIES ROUNDS FILE";

fn main(rt: HostRuntime) -> Result<()> {
    let mut words = env::args(&rt)?;
    let call = words.nth(1).context(USAGE)?;
    let copies = number(words.next())?;
    let rounds = number(words.next())?;
    let path = words.next().context(USAGE)?;
    let piece = fs::read(&rt, path.as_str()).context(format_args!("reading {path}"))?;
    let text = repeated(rt.alloc(), piece.as_slice(), copies)?;
    let source = text.as_slice();
    ensure!(source.len() < 1 << 30, "the text has a gigabyte");
    let (found, what) = match call.as_str() {
        "tokens" => (tokenised(rt.alloc(), source, rounds)?, "tokens"),
        "parse" => (parsed(rt.alloc(), source, rounds)?, "declarations"),
        _ => bail!("{USAGE}"),
    };
    let bytes = source.len();
    println!(rt; "bytes {bytes}, {what} {found}")?;
    Ok(())
}

/// A number of the command line.
fn number(word: Option<String>) -> Result<u32> {
    let word = word.context(USAGE)?;
    word.as_str()
        .parse::<u32>()
        .context("COPIES and ROUNDS are numbers below 2^32")
}
