//! Functions.

ghost use Rattle.std.specs.Prelude.{◌≡◌, IfOk};
ghost use Rattle.hare_whole.specs.Declared.{unnumbered};
ghost use Rattle.hare_finish.specs.Made.{last_tree, IsFunctionMade};

use crate::counts::count_tree;
use crate::nodes::{front, has_kids, kid, node};
use crate::params::finish_params;
use crate::unnumbered::copy_unnumbered;
use hare_tree::Tree;
use hare_typed::{Typed, TypedKids};
use hare_types::TypeId;
use std::alloc::{AllocError, Global};

/// The last of some types, as it stands in a declaration.
fn last_type(alloc: Global, types: &TypedKids) -> Result<Typed, AllocError>
    ensures { IfOk result (λ x. x ≡ unnumbered (last_tree types.now)) }
{
    let count = types.len();
    if count == 0 {
        return Err(AllocError);
    }
    let Some(written) = types.get(count - 1) else {
        return Err(AllocError);
    };
    copy_unnumbered(alloc, written)
}

/// The tree of a function with this body. The last of its types is that of its result, and the others are those of its parameters, which
/// are numbered behind the nodes of the body.
pub(crate) fn finish_function(
    alloc: Global,
    void: TypeId,
    decl: &Tree,
    types: &TypedKids,
    body: Typed,
) -> Result<Typed, AllocError>
    ensures { IfOk result (IsFunctionMade void decl.now types.now body) }
{
    if !has_kids(decl, 5) {
        return Err(AllocError);
    }
    let first = count_tree(0, &body)?;
    let params = finish_params(alloc, void, first, kid(decl, 2), types)?;
    let result = last_type(alloc, types)?;
    let mut kids = front(alloc, void, decl)?;
    kids.push(params)?;
    kids.push(result)?;
    kids.push(body)?;
    node(alloc, void, 0, decl, kids)
}
