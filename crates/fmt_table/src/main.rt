//! Prints the layouts of short files. The standard input has a line for each file: before the ` ~> ` of each stands the layout that was
//! worked out by hand from docs/LAYOUT.md, or the fault of the file, as `E8 1:6`, its number, line and column; behind it the file. In both
//! `$` stands for a line feed, `#` for a tab and `@` for a CR. What is printed is the line again, with what is found before the ` ~> `.
//!
//! So where the same is found, what is printed is what is read. Each layout is laid out once more, and has to stay as it is.
#![tactic(auto)]

mod answer;

use crate::answer::answer;
use anyhow::Result;

fn main(rt: HostRuntime) -> Result<()> {
    let alloc = rt.alloc();
    for line in rt.lines(alloc) {
        let line = line?;
        match answer(alloc, line.as_str()) {
            Ok(answer) => println!(rt; "{answer}")?,
            Err(error) => println!(rt; "{error}: {line}")?,
        }
    }
    Ok(())
}
