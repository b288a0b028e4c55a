//! Prints what the judges find of single nodes. The standard input has the lines of docs/JUDGES.md, as `E27 at 3 => a + b where let a: u8; let b: int`: before the `=>` stands what
//! was worked out by hand, behind it an expression, and behind `where` what is told with it. The judge of its kind is told the node and its kids as the line has
//! them, and no other judge is asked. What is printed is the line again, with what that judge answers before the `=>`:
//!
//! - `E27 at 3`, the number of the first row that fails, and the column at which the fault stands;
//! - `ok TYPE`, the type of the node; `to TYPE by row 3` behind it is its coercion, by that row of the table of assignability; and behind `with` stand the coercions
//!   that the node settles, of kids and of what is yielded to it.
//!
//! So where the judges answer the same, what is printed is what is read.
#![tactic(auto)]

mod answer;
mod items;
mod judged;
mod marks;
mod meanings;
mod part;
mod ready;
mod told;
mod verdict;

use crate::answer::answer;
use anyhow::Result;

fn main(rt: HostRuntime) -> Result<()> {
    for line in rt.lines(rt.alloc()) {
        let line = line?;
        print(&rt, line.as_str())?;
    }
    Ok(())
}

/// Prints a line with what is found of its node.
fn print(rt: &HostRuntime, line: &str) -> Result<()> {
    match answer(rt.alloc(), line) {
        Ok(answer) => println!(rt; "{answer}")?,
        Err(error) => println!(rt; "{error}: {line}")?,
    }
    Ok(())
}
