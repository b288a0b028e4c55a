//! What is read of a declaration: its sort, and the ids of its types.

ghost use Rattle.std.specs.Prelude.{◌≡◌, not, IfOk};
ghost use Rattle.hare_tree.specs.Node.{head};
ghost use Rattle.hare_tree.specs.Shape as shape;
ghost use Rattle.hare_modules.specs.Uses as uses;
ghost use Rattle.hare_depends.specs.Sorts as sorts;
ghost use Rattle.hare_known.specs.Known.{IsWrittenAt};

use hare_depends::Sort;
use hare_tree::{Kind, Tree};
use hare_typed::TypedKids;
use hare_types::{Ty, TypeId};
use std::alloc::AllocError;

/// The kid with so many kids before it; a tree that has no such kid stands for it.
fn kid(t: &Tree, i: usize) -> &Tree
    ensures { result.now ≡ uses.kid t.now i }
{
    match t.kids.get(i) {
        Some(k) => k,
        None => t,
    }
}

/// Whether the written type of a def or of a global is left out.
pub(crate) fn is_type_left_out(decl: &Tree) -> bool
    ensures { result ≡ shape.is_none (head (uses.kid decl.now 2)).kind }
{
    let part = kid(decl, 2);
    matches!(part.kind, Kind::None)
}

/// What a declaration is to those that depend on it.
pub(crate) fn sort_of(decl: &Tree) -> Sort
    ensures { result ≡ sorts.sort_of decl.now }
{
    match decl.kind {
        Kind::TypeDecl => Sort::Type,
        Kind::Fn => Sort::Function,
        Kind::GlobalLet | Kind::GlobalConst => sort_of_global(is_type_left_out(decl)),
        _ => Sort::Constant,
    }
}

/// What a global is whose type is left out or not.
fn sort_of_global(is_left_out: bool) -> Sort
    ensures { result ≡ sorts.sort_of_global (not is_left_out) }
{
    if is_left_out {
        Sort::Constant
    } else {
        Sort::Global
    }
}

/// The id of the type that is written with so many before it. What is no id, and a type that is not there, are answered as want of memory.
pub(crate) fn written_at(types: &TypedKids, i: usize) -> Result<TypeId, AllocError>
    ensures { IfOk result (IsWrittenAt types.now i) }
{
    let Some(t) = types.get(i) else {
        return Err(AllocError);
    };
    match t.ty {
        Ty::Of(u) => Ok(u),
        Ty::Iconst(_) | Ty::Null | Ty::Empty => Err(AllocError),
    }
}
