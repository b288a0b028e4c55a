//! Emits a program of flat code again and again, so that the time of that can be measured: `emit_bench SHAPE SIZE ROUNDS`. A shape is
//! `statements`, so many in one function, of which half need a computed address; `functions`, so many, each of which calls the next; or
//! `seqs`, `loops` or `ifs`, so many within one another. The program prints how many blocks and instructions its module has.
#![tactic(auto)]

mod count;
mod shapes;

use crate::count::Size;
use anyhow::{Context, Result, bail};
use flat_code::{FlatProgram, well_formed};
use il_emit::emit;
use std::alloc::{AllocError, Global};
use std::env;

const USAGE: &str = "usage: emit_bench statements|functions|seqs|loops|ifs SIZE ROUNDS";

fn main(rt: HostRuntime) -> Result<()> {
    let mut words = env::args(&rt)?;
    let shape = words.nth(1).context(USAGE)?;
    let size = number(words.next())?;
    let rounds = number(words.next())?;
    let Some(program) = shapes::program_of(rt.alloc(), shape.as_str(), size)? else {
        bail!("{USAGE}");
    };
    match emitted(rt.alloc(), &program, rounds)? {
        None => bail!("the program is not well formed"),
        Some(Size { blocks, insts }) => println!(rt;
            "size {size}, blocks {blocks}, instructions {insts}"
        )?,
    }
    Ok(())
}

/// Emits a program so many times, and counts what its module has. None if the program is not well formed.
fn emitted(alloc: Global, program: &FlatProgram, rounds: u32) -> Result<Option<Size>, AllocError> {
    if !well_formed(program) {
        return Ok(None);
    }
    let mut size = Size {
        blocks: 0,
        insts: 0,
    };
    for _ in 0..rounds {
        size = count::size_of(&emit(alloc, program)?);
    }
    Ok(Some(size))
}

/// A number of the command line.
fn number(word: Option<String>) -> Result<u32> {
    let word = word.context(USAGE)?;
    word.as_str()
        .parse::<u32>()
        .context("SIZE and ROUNDS are numbers below 2^32")
}
