//! Programs of one file.

ghost use Rattle.std.specs.Prelude.{◌≡◌, true, IfOk, IfSome};
ghost use Rattle.hare_tree.specs.declared.form.Sort.TheVariants as so;
ghost use Rattle.hare_tree.specs.Shape.{is_shaped};
ghost use Rattle.hare_rules.specs.Finished.{expression};
ghost use Rattle.body_table.specs.Shaped.{IsShaped};

use hare_decl::law_trees_of_sources;
use hare_names::Files2;
use hare_sources::{Named, Sources, read};
use hare_tree::{Fault, Kind, Sort, Stop, Tree, kid_sort};
use hx_base::{Bytes, Text};
use std::alloc::Global;

/// The tree of the one file of a program, and what its paths mean; or the first fault of its tokens, its syntax and its names.
pub(crate) fn program(alloc: Global, source: &str) -> Result<Named, Stop<Fault>>
    ensures { IfOk result IsShaped }
{
    let mut bytes = Bytes::new(alloc);
    bytes.extend(source.as_bytes())?;
    let mut sources = Sources::new(alloc);
    sources.push(bytes)?;
    let mut paths = Vec::new(alloc);
    paths.push(Text::copy(alloc, "main.ha")?)?;
    if sources.len() != paths.len() || paths.len() > 1 {
        return Err(Stop::Memory);
    }
    law_trees_of_sources();
    read(alloc, paths.as_slice(), &sources)
}

/// The number of the function of this name: its place among the declarations of the one file.
pub(crate) fn function(files: &Files2, name: &[u8]) -> Option<usize> {
    let file = match files.get(0) {
        Some(file) => file,
        None => return None,
    };
    for i in 0..file.decls.len() {
        if let Some(tree) = file.decls.get(i) {
            if is_function(tree, name) {
                return Some(i);
            }
        }
    }
    None
}

/// Whether a declaration is that of a function of this name.
fn is_function(tree: &Tree, name: &[u8]) -> bool {
    match tree.kids.get(1) {
        Some(own) => tree.kind == Kind::Fn && own.text.bytes() == name,
        None => false,
    }
}

/// The body of the function with this number.
pub(crate) fn body(named: &Named, number: usize) -> Option<&Tree>
    requires { IsShaped named.now }
    ensures { IfSome result (λ b. is_shaped expression b.now ≡ true) }
{
    match named.files.get(0) {
        Some(file) => match file.decls.get(number) {
            Some(decl) => body_of(decl),
            None => None,
        },
        None => None,
    }
}

/// The body of a function.
fn body_of(decl: &Tree) -> Option<&Tree>
    requires { is_shaped so.Decl decl.now ≡ true }
    ensures { IfSome result (λ b. is_shaped expression b.now ≡ true) }
{
    match decl.kids.get(4) {
        Some(body) => {
            if body.kind == Kind::None {
                return None;
            }
            match kid_sort(decl.kind, decl.kids.len(), 4) {
                Some(Sort::Level(1)) => Some(body),
                _ => None,
            }
        }
        None => None,
    }
}
