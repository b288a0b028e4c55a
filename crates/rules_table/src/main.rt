//! Prints the table of typing rules as a page: each kind of node with its rows, in the order in which they are looked at.
#![tactic(auto)]

mod kinds;
mod words;

use crate::kinds::{Entry, aggregates, control, declarations, operators, types};
use crate::words::{asks, stands};
use anyhow::Result;
use hare_rules::{number, rows};

fn main(rt: HostRuntime) -> Result<()> {
    let out = &mut String::new(rt.alloc());
    out.push_str(HEAD)?;
    put_group(out, "Literals, names and operators", operators())?;
    put_group(out, "Calls, places, aggregates and the heap", aggregates())?;
    put_group(out, "Statements and control", control())?;
    put_group(out, "Declarations with a value", declarations())?;
    put_group(out, "Types", types())?;
    print!(rt; "{out}")?;
    Ok(())
}

/// What stands above the table.
const HEAD: &str = "# The typing rules

The program `rules_table` prints this page: the table that `rows` and `number` of `hare_rules` answer, with what each row asks in words.

A node is judged when all of its kids have been, from left to right. Its rows are looked at in order, and the first that fails is its fault: E with
the row's number, at the node where no other place is said. So no row has to make sense behind one that fails. What the words mean, and what a node
asks of its kids, stands in LANGUAGE.md. A kind that does not stand here has no rows: it gives void, and nothing is asked of it.
";

/// Writes the kinds of a group with their rows.
fn put_group(out: &mut String, title: &str, entries: &[Entry]) -> Result<()> {
    write!(out, "\n## {title}\n")?;
    for entry in entries {
        put_kind(out, entry)?;
    }
    Ok(())
}

/// Writes a kind, how it is written, and its rows.
fn put_kind(out: &mut String, entry: &Entry) -> Result<()> {
    let kind = entry.kind;
    let form = entry.form;
    write!(out, "\n### {kind:?}\n\n{form}\n\n")?;
    for row in rows(kind) {
        let number = number(*row);
        let asks = asks(*row);
        let stands = stands(*row);
        write!(out, "1. **E{number}** {row:?}: {asks}{stands}.\n")?;
    }
    Ok(())
}
