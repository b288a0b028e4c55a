//! The texts that lines stand for.

use anyhow::{Context, Result, bail};
use std::alloc::Global;

/// The bytes that a line stands for.
pub(crate) fn text_of(alloc: Global, line: &str) -> Result<Vec<u8>> {
    let whole = put_together(alloc, line)?;
    bytes_of(alloc, whole.as_str())
}

/// The line; where it begins with `%`, its pieces, each as often as its number says.
fn put_together(alloc: Global, line: &str) -> Result<String> {
    let Some(pieces) = line.strip_prefix('%') else {
        return Ok(String::from_str(alloc, line)?);
    };
    let mut whole = String::new(alloc);
    for piece in pieces.split('%') {
        let (times, text) = piece.split_once(' ').context("a piece without a number")?;
        for _ in 0..times.parse::<u32>()? {
            whole.push_str(text)?;
        }
    }
    Ok(whole)
}

/// The bytes of a text, in which `$` and two hexadecimal digits stand for a byte.
fn bytes_of(alloc: Global, text: &str) -> Result<Vec<u8>> {
    let mut bytes = Vec::new(alloc);
    let mut parts = text.split('$');
    if let Some(first) = parts.next() {
        bytes.extend_from_slice(first.as_bytes())?;
    }
    for part in parts {
        let [high, low, rest @ ..] = part.as_bytes() else {
            bail!("a byte without its number");
        };
        bytes.push((digit(*high)? << 4) | digit(*low)?)?;
        bytes.extend_from_slice(rest)?;
    }
    Ok(bytes)
}

/// The value of a hexadecimal digit.
fn digit(c: u8) -> Result<u8> {
    match c {
        b'0'..=b'9' => Ok(c - b'0'),
        b'a'..=b'f' => Ok(c - b'a' + 10),
        _ => bail!("no hexadecimal digit"),
    }
}
