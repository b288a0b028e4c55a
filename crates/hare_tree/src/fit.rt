//! Which trees of files are in the language.

ghost use Rattle.std.specs.Prelude.{◌≡◌, take, drop};
ghost use Rattle.std.specs.List.{list_all};
ghost use Rattle.hare_tree.specs.Depth.{fits_as, fits_file};

use crate::depth::{ROOM, keeps_limits};
use crate::form::Sort;
use crate::shape::judged_tree;
use crate::tree::{FileTree, Kids, Tree};

/// Whether the tree of a file is in the language: it is shaped, and each of its trees keeps the limits on depth.
///
/// The call takes no memory, and goes over the tree twice at most. It leaves a tree as soon as more of its nodes stand within one another
/// than in any tree of the language, which are 511.
pub fn fits(t: &FileTree) -> bool
    ensures { result ≡ fits_file t.now }
{
    all_fit(&t.uses, Sort::Use) && all_fit(&t.decls, Sort::Decl)
}

/// Whether all trees of a list are of this sort and fit.
fn all_fit(kids: &Kids, sort: Sort) -> bool
    ensures { result ≡ list_all (fits_as sort) kids.now }
{
    for i in 0..kids.len() {
        if !kid_fits(kids, i, sort) {
            return false;
        }
    }
    true
}

/// Whether the `i`th tree of a list, if there is one, is of this sort and fits.
fn kid_fits(kids: &Kids, i: usize, sort: Sort) -> bool
    ensures { result ≡ list_all (fits_as sort) (take 1 (drop i kids.now)) }
{
    match kids.get(i) {
        Some(kid) => tree_fits(kid, sort),
        None => true,
    }
}

/// Whether a tree is of this sort, shaped, and keeps the limits on depth.
fn tree_fits(t: &Tree, sort: Sort) -> bool
    ensures { result ≡ fits_as sort t.now }
{
    match judged_tree(t, sort, ROOM) {
        Some(_) => keeps_limits(t, 0, false, ROOM),
        None => false,
    }
}
