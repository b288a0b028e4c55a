//! Prints what lines of the standard input come to, each of which enters or asks something of the types of a program:
//!
//! - `declare NAME` and `declare NAME unsized` enter a name, of a type with or without a size; `define NAME TYPE` enters what it is;
//! - `admit TYPE` asks what a spelled type is reduced to, `base TYPE` what is left of it without names and error marks;
//! - `extent TYPE` asks for its size and alignment, `fields TYPE` for these and for where its fields begin, where it is not too large;
//! - `field NAME of TYPE` asks which field of a struct has the name, counted from 0, and `payload TYPE` where the payload of a union
//! begins;
//! - `assign TYPE <- VALUE` asks by which row of the table of assignability the value is assigned to the type, `cast TYPE <- VALUE` whether
//! it may
//!   be cast to it. A value is `null`, `[]`, a whole number, or a type, which stands for a value of that type;
//! - `becomes TYPE <- VALUE` asks which member of a union the value becomes, and by which row of the table it is assigned to that member;
//! - `subset TYPE of TYPE` asks whether the members of one union are members of the other;
//! - `tag TYPE` gives a type a tag, and `untag` takes all tags away.
//!
//! The first fault of a type is told with the column at which it stands in its line, as `E35 at 14`.
#![tactic(auto)]

mod answer;
mod layout;
mod unions;
mod values;

use crate::answer::answer;
use anyhow::Result;
use spelled_types::Table;

fn main(rt: HostRuntime) -> Result<()> {
    let mut table = Table::new(rt.alloc());
    print_all(&rt, &mut table)
}

/// Prints what the lines come to. The types stand in `main` alone, since each function that may drop them is proved to drop them.
fn print_all(rt: &HostRuntime, table: &mut Table) -> Result<()> {
    for line in rt.lines(rt.alloc()) {
        let line = line?;
        print(rt, table, line.as_str())?;
    }
    Ok(())
}

/// Prints a line, and what it comes to.
fn print(rt: &HostRuntime, table: &mut Table, line: &str) -> Result<()> {
    match answer(table, line) {
        Ok(answer) => println!(rt; "{line}\n  {answer}")?,
        Err(error) => println!(rt; "{line}\n  {error}")?,
    }
    Ok(())
}
