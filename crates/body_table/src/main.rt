//! Prints what the checker finds of the bodies of small programs. The standard input has the lines of docs/BODIES.md: before the `=>` of each stands what was worked
//! out by hand, behind it the source of the one file of a program, in which `$` stands for a line feed. What is printed is the line again, with what the checker finds of
//! the body of the function `f` before the `=>`:
//!
//! - `E25 1:33`, the first fault, with the line and the column at which it stands;
//! - `ok TYPE`, the type of the value of the body, where it is well typed;
//! - `ok TYPE at 1:25`, where the line asks for a place: the type of the node there; `to TYPE by row 3` in front of the place is its coercion, by that row of the table of
//!   assignability.
//!
//! So where the checker finds the same, what is printed is what is read.
#![tactic(auto)]

mod answer;
mod found;
mod known;
mod listing;
mod program;
mod types;

use crate::answer::answer;
use anyhow::Result;

fn main(rt: HostRuntime) -> Result<()> {
    for line in rt.lines(rt.alloc()) {
        let line = line?;
        print(&rt, line.as_str())?;
    }
    Ok(())
}

/// Prints a line with what is found of its program.
fn print(rt: &HostRuntime, line: &str) -> Result<()> {
    match answer(rt.alloc(), line) {
        Ok(answer) => println!(rt; "{answer}")?,
        Err(error) => println!(rt; "{error}: {line}")?,
    }
    Ok(())
}
