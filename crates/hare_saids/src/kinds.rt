//! What trees are, by their kinds.

ghost use Rattle.std.specs.Prelude.{◌≡◌, not};
ghost use Rattle.hare_modules.specs.Uses as uses;
ghost use Rattle.hare_depends.specs.Said as spec;
ghost use Rattle.hare_depends.specs.Sorts as sorts;
ghost use Rattle.hare_tree.specs.Shape.{is_none};
ghost use Rattle.hare_saids.specs.Kinds.{is_path, is_held};

use hare_depends::Sort;
use hare_tree::{Kind, Tree};

/// The kid with so many kids before it; a tree that has no such kid stands for it.
pub(crate) fn kid(t: &Tree, i: usize) -> &Tree
    ensures { result.now ≡ uses.kid t.now i }
{
    match t.kids.get(i) {
        Some(k) => k,
        None => t,
    }
}

/// Whether a tree is a path of a type or of an expression.
pub(crate) fn is_path(k: Kind) -> bool
    ensures { result ≡ is_path k }
{
    matches!(k, Kind::TypePath | Kind::Path)
}

/// Whether a tree is the path of a type that is held by value or spread, or of the length of an array.
pub(crate) fn is_held(k: Kind, behind: bool) -> bool
    ensures { result ≡ is_held k behind }
{
    match k {
        Kind::TypePath => !behind,
        Kind::Path => true,
        _ => false,
    }
}

/// Whether what stands in a type stands behind a pointer or slice. What is spread is held all the same.
pub(crate) fn is_behind(k: Kind, behind: bool) -> bool
    ensures { result ≡ spec.is_behind k behind }
{
    match k {
        Kind::TypePointer | Kind::TypeNullable | Kind::TypeSlice => true,
        Kind::Spread => false,
        _ => behind,
    }
}

/// What a declaration is to those that depend on it.
pub(crate) fn sort_of(t: &Tree) -> Sort
    ensures { result ≡ sorts.sort_of t.now }
{
    match t.kind {
        Kind::TypeDecl => Sort::Type,
        Kind::Fn => Sort::Function,
        Kind::GlobalLet | Kind::GlobalConst => sort_of_global(is_none(kid(t, 2).kind)),
        _ => Sort::Constant,
    }
}

/// What a global is whose type is left out or not.
fn sort_of_global(is_left_out: bool) -> Sort
    ensures { result ≡ sorts.sort_of_global (not is_left_out) }
{
    if is_left_out {
        Sort::Constant
    } else {
        Sort::Global
    }
}

/// Whether a tree stands in the place of what is not there.
fn is_none(k: Kind) -> bool
    ensures { result ≡ is_none k }
{
    matches!(k, Kind::None)
}
