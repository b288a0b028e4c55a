//! Prints what is found of small programs. The standard input has the lines of docs/PROGRAMS.md: before the `=>` of each stands what was
//! worked out by hand, behind it the files of a program. Each begins with an `@` and its path, behind which stands a space and its source;
//! a source alone is that of `main.ha`. In a source `$` stands for a line feed. What is printed is the line again, with what is found
//! before the `=>`:
//!
//! - `ok`, where the program is checked;
//! - `E25 b.ha:1:13`, its first fault, with the path of the file and the line and the column at which it stands.
//!
//! So where the checker finds the same, what is printed is what is read.
#![tactic(auto)]

mod answer;
mod files;

use crate::answer::answer;
use anyhow::Result;

fn main(rt: HostRuntime) -> Result<()> {
    for line in rt.lines(rt.alloc()) {
        let line = line?;
        print(&rt, line.as_str())?;
    }
    Ok(())
}

/// Prints a line with what is found of its program.
fn print(rt: &HostRuntime, line: &str) -> Result<()> {
    match answer(rt.alloc(), line) {
        Ok(answer) => println!(rt; "{answer}")?,
        Err(error) => println!(rt; "{error}: {line}")?,
    }
    Ok(())
}
