//! What a line comes to.

ghost use Rattle.std.specs.Prelude.{◌≡◌, true};
ghost use Rattle.hare_tree.specs.Depth.{fits_file};

use crate::items::{enter, tell};
use crate::judged::judged;
use crate::part::{first_declaration, parsed, part};
use crate::told::Told;
use anyhow::{Context, Result};
use hare_tree::FileTree;
use spelled_types::{NOMEM, Table, type_in};
use std::alloc::Global;

/// The number of the kid of a function that is its body.
const BODY: usize = 4;

/// The line with what is found of its node before the `=>`.
pub(crate) fn answer(alloc: Global, line: &str) -> Result<String> {
    let (_, case) = line.split_once(" => ").context("a line without =>")?;
    let found = found(alloc, case)?;
    Ok(format!(in alloc; "{found} => {case}")?)
}

/// What is found of a case, in a table of its own. Its types stand here alone, since each function that may drop them is proved to drop them.
fn found(alloc: Global, case: &str) -> Result<String> {
    let mut table = Table::new(alloc);
    found_in(&mut table, case)
}

/// The same, in a table without types. The refusal of memory is defined, and the function gives void.
fn found_in(table: &mut Table, case: &str) -> Result<String> {
    let (expression, items) = case.split_once(" where ").unwrap_or((case, ""));
    let result = type_in(table, 0, "void")?;
    enter(table, NOMEM, "!void")?;
    let mut told = Told::new(table.alloc, result);
    found_told(table, &mut told, expression, items)
}

/// What is found of an expression where these items are told.
fn found_told(table: &mut Table, told: &mut Told, expression: &str, items: &str) -> Result<String> {
    tell_all(table, told, items)?;
    let file = parsed(table.alloc, expression)?;
    found_of(table, told, &file)
}

/// Takes in what these items tell.
fn tell_all(table: &mut Table, told: &mut Told, items: &str) -> Result<()> {
    for item in items.split(';') {
        let item = item.strip_prefix(' ').unwrap_or(item);
        if !item.is_empty() {
            tell(table, told, item)?;
        }
    }
    Ok(())
}

/// What is found of the body of the first function of a file, or of the part of it that is told.
fn found_of(table: &mut Table, told: &mut Told, file: &FileTree) -> Result<String>
    requires { fits_file file.now ≡ true }
{
    let function = first_declaration(file).context("no function")?;
    let body = part(function, BODY).context("no expression")?;
    match told.part {
        Some(number) => {
            let node = part(body, number).context("no such part")?;
            judged(table, told, node)
        }
        None => judged(table, told, body),
    }
}
