//! Prints what small programs come to: what each path in them means, or their first fault. In the standard input a program is a block of
//! lines, of which each is a file: its path, a blank and its source, in which `$` stands for a line feed. An empty line ends the block.
#![tactic(auto)]

mod answer;
mod listing;
mod program;

use crate::answer::answer;
use crate::program::Program;
use anyhow::Result;

fn main(rt: HostRuntime) -> Result<()> {
    let mut program = Program::new(rt.alloc());
    print_all(&rt, &mut program)
}

/// Takes in the lines, and prints what each program comes to.
fn print_all(rt: &HostRuntime, program: &mut Program) -> Result<()> {
    for line in rt.lines(rt.alloc()) {
        let line = line?;
        take(rt, program, line.as_str())?;
    }
    Ok(())
}

/// Adds the file of a line to a program; or prints what the program comes to, and begins another.
fn take(rt: &HostRuntime, program: &mut Program, line: &str) -> Result<()> {
    match line.split_once(' ') {
        Some((path, source)) => {
            println!(rt; "{line}")?;
            program.add(rt.alloc(), path, source)?;
        }
        None => {
            print(rt, program)?;
            *program = Program::new(rt.alloc());
        }
    }
    Ok(())
}

/// Prints what a program comes to.
fn print(rt: &HostRuntime, program: &Program) -> Result<()> {
    let answer = answer(rt.alloc(), program)?;
    println!(rt; "{answer}")?;
    Ok(())
}
