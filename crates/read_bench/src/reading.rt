//! What a text comes to.

ghost use Rattle.std.specs.Prelude.{◌<◌, ◌+◌, ◌^◌, length};

use anyhow::{Result, anyhow};
use hare_decl::parse_source;
use hare_lex::{LexStop, tokens};
use hare_tree::{Fault, Stop};
use std::alloc::{AllocError, Global};

/// The text so many times.
pub(crate) fn repeated(alloc: Global, piece: &[u8], copies: u32) -> Result<Vec<u8>, AllocError> {
    let mut text = Vec::new(alloc);
    for _ in 0..copies {
        text.extend_from_slice(piece)?;
    }
    Ok(text)
}

/// How many tokens the text has, which is read so many times.
pub(crate) fn tokenised(alloc: Global, text: &[u8], rounds: u32) -> Result<usize>
    requires { length text.now + 1 < 2 ^ 32 }
{
    let mut found = 0;
    for _ in 0..rounds {
        found = match tokens(alloc, 0, text) {
            Ok(tokens) => tokens.len(),
            Err(LexStop::Fault { fault, kept: _ }) => return Err(told(Stop::Fault(fault))),
            Err(LexStop::Memory) => return Err(told(Stop::Memory)),
        };
    }
    Ok(found)
}

/// How many imports and declarations the text has, which is read so many times.
pub(crate) fn parsed(alloc: Global, text: &[u8], rounds: u32) -> Result<usize>
    requires { length text.now + 1 < 2 ^ 32 }
{
    let mut found = 0;
    for _ in 0..rounds {
        found = match parse_source(alloc, 0, text) {
            Ok(tree) => tree.uses.len().saturating_add(tree.decls.len()),
            Err(stop) => return Err(told(stop)),
        };
    }
    Ok(found)
}

/// Why there is no answer.
fn told(stop: Stop<Fault>) -> anyhow::Error {
    match stop {
        Stop::Fault(fault) => {
            let number = fault.number;
            anyhow!("E{number}")
        }
        Stop::Memory => anyhow!("out of memory"),
    }
}
