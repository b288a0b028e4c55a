//! The node that a line is about.

ghost use Rattle.std.specs.Prelude.{◌≡◌, true, IfOk, IfSome};
ghost use Rattle.hare_tree.specs.Depth.{fits_file};
ghost use Rattle.judge_table.specs.Shaped.{IsShaped};

use anyhow::{Result, bail, ensure};
use hare_decl::{law_trees_of_sources, parse_source};
use hare_tree::{FileTree, Kind, Stop, Tree, kid_sort};
use std::alloc::{AllocError, Global};

/// A file whose one function has this body, in its second line.
pub(crate) fn parsed(alloc: Global, expression: &str) -> Result<FileTree>
    ensures { IfOk result (λ f. fits_file f ≡ true) }
{
    let source = source(alloc, expression)?;
    file_in(alloc, source.as_bytes())
}

/// The text of that file.
fn source(alloc: Global, expression: &str) -> Result<String, AllocError> {
    let mut source = String::from_str(alloc, "fn f() void =\n")?;
    source.push_str(expression)?;
    source.push(';')?;
    Ok(source)
}

/// The file of a text.
fn file_in(alloc: Global, source: &[u8]) -> Result<FileTree>
    ensures { IfOk result (λ f. fits_file f ≡ true) }
{
    ensure!(source.len() < 4_294_967_295, "a line of 4 GiB");
    law_trees_of_sources();
    match parse_source(alloc, 0, source) {
        Ok(file) => Ok(file),
        Err(Stop::Fault(fault)) => {
            let (number, column) = (fault.number, fault.place.column);
            bail!("E{number} of syntax at {column}")
        }
        Err(Stop::Memory) => bail!("out of memory"),
    }
}

/// The first declaration of a file.
pub(crate) fn first_declaration(file: &FileTree) -> Option<&Tree>
    requires { fits_file file.now ≡ true }
    ensures { IfSome result (λ t. IsShaped t.now) }
{
    match file.decls.get(0) {
        Some(tree) => Some(tree),
        None => None,
    }
}

/// The kid of a tree with this number, where it is there.
pub(crate) fn part(tree: &Tree, number: usize) -> Option<&Tree>
    requires { IsShaped tree.now }
    ensures { IfSome result (λ t. IsShaped t.now) }
{
    match tree.kids.get(number) {
        Some(kid) => {
            if kid.kind == Kind::None {
                return None;
            }
            match kid_sort(tree.kind, tree.kids.len(), number) {
                Some(_sort) => Some(kid),
                None => None,
            }
        }
        None => None,
    }
}
