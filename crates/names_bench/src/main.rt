//! Resolves the names of programs again and again, so that the time of that can be measured: `names_bench PROGRAMS FILES FUNCTIONS ROUNDS`.
//! Each program has so many files, all of one module, and each file so many functions of one line, as `fn f_0_0(a: u32) u32 = a * 613;`. The
//! files are read once. In each round the names of one program after the other are resolved, and each path is asked what it means. So where
//! the programs together are larger than the caches, the trees of each have left these when its turn comes.
#![tactic(auto)]

mod meanings;
mod program;
mod reading;

use crate::meanings::in_rounds;
use crate::program::Program;
use crate::reading::{ReadProgram, read_program};
use anyhow::{Context, Result};
use std::alloc::Global;
use std::env::{self, Args};

const USAGE: &str = "usage: names_bench PROGRAMS FILES FUNCTIONS ROUNDS";

fn main(rt: HostRuntime) -> Result<()> {
    let asked = asked_of(&rt)?;
    let mut programs = Vec::new(rt.alloc());
    let bytes = read_all(rt.alloc(), &mut programs, asked)?;
    measure(&rt, programs.as_slice(), bytes, asked)
}

/// What the command line asks for.
#[derive(Clone, Copy)]
struct Asked {
    programs: u32,
    files: u32,
    functions: u32,
    rounds: u32,
}

/// What the command line asks for.
fn asked_of(rt: &HostRuntime) -> Result<Asked> {
    let mut words = env::args(rt)?;
    read(&mut words)
}

/// The same, by the words of the command line.
fn read(words: &mut Args) -> Result<Asked> {
    let programs = number(words.nth(1))?;
    let files = number(words.next())?;
    let functions = number(words.next())?;
    let rounds = number(words.next())?;
    Ok(Asked {
        programs,
        files,
        functions,
        rounds,
    })
}

/// A number of the command line.
fn number(word: Option<String>) -> Result<u32> {
    let word = word.context(USAGE)?;
    word.as_str()
        .parse::<u32>()
        .context("each of the four is a number below 2^32")
}

/// Reads the programs that are asked for. Answers how many bytes they have together.
fn read_all(alloc: Global, programs: &mut Vec<ReadProgram>, asked: Asked) -> Result<usize> {
    let mut bytes: usize = 0;
    for _ in 0..asked.programs {
        let program = Program::of(alloc, asked.files, asked.functions)?;
        bytes = bytes.saturating_add(program.bytes);
        let program = read_program(alloc, program)?;
        programs.push(program)?;
    }
    Ok(bytes)
}

/// Resolves the names of the programs so many times, and prints how many paths mean something.
fn measure(rt: &HostRuntime, programs: &[ReadProgram], bytes: usize, asked: Asked) -> Result<()> {
    let found = in_rounds(rt.alloc(), programs, asked.rounds)?;
    let (count, files) = (programs.len(), asked.files);
    println!(rt;
        "programs {count}, files of each {files}, bytes {bytes}, paths that mean something {found}"
    )?;
    Ok(())
}
