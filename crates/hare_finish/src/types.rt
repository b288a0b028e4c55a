//! Type declarations.

ghost use Rattle.std.specs.Prelude.{◌≡◌, IfOk};
ghost use Rattle.hare_finish.specs.Made.{IsTypeMade};

use crate::nodes::{front, has_kids, node};
use crate::unnumbered::copy_unnumbered;
use hare_tree::Tree;
use hare_typed::{Typed, TypedKids};
use hare_types::TypeId;
use std::alloc::{AllocError, Global};

/// The tree of a type declaration, of which this is the written type.
pub(crate) fn finish_type(
    alloc: Global,
    void: TypeId,
    decl: &Tree,
    types: &TypedKids,
) -> Result<Typed, AllocError>
    ensures { IfOk result (IsTypeMade void decl.now types.now) }
{
    if types.len() != 1 {
        return Err(AllocError);
    }
    if !has_kids(decl, 3) {
        return Err(AllocError);
    }
    let Some(written) = types.get(0) else {
        return Err(AllocError);
    };
    let mut kids = front(alloc, void, decl)?;
    kids.push(copy_unnumbered(alloc, written)?)?;
    node(alloc, void, 0, decl, kids)
}
