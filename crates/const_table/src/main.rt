//! Prints the constants of small programs. The standard input has the lines of docs/CONSTANTS.md: before the `=>` of each stands what was worked out by hand, behind it the source of the one file of a
//! program, which has a function `main` besides. What is printed is the line again, with what is found before the `=>`:
//!
//! - the cells of the constant of the global or def `x`, and behind them the objects to which they lead, each with its cells;
//! - `E21 1:9`, the first fault, with the line and the column at which it stands.
//!
//! So where the checker finds the same, what is printed is what is read.
//!
//! `const_table constants ROUNDS` works out the constants of all globals and defs of each program so many times instead, and prints how many
//! cells they keep; `const_table tests ROUNDS` does as often what is looked at before each of them, and prints how many can be told. So the
//! time of both can be measured.
#![tactic(auto)]

mod answer;
mod asked;
mod cells;
mod declared;
mod rounds;
mod words;

use crate::answer::answer;
use crate::asked::{Asked, asked_of};
use anyhow::Result;

fn main(rt: HostRuntime) -> Result<()> {
    let asked = asked_of(&rt)?;
    for line in rt.lines(rt.alloc()) {
        let line = line?;
        print(&rt, asked, line.as_str())?;
    }
    Ok(())
}

/// Prints a line with what is found of its program.
fn print(rt: &HostRuntime, asked: Asked, line: &str) -> Result<()> {
    match answer(rt.alloc(), asked, line) {
        Ok(answer) => println!(rt; "{answer}")?,
        Err(error) => println!(rt; "{error}: {line}")?,
    }
    Ok(())
}
