//! Copies of typed trees.

ghost use Rattle.std.specs.Prelude.{◌≡◌, IfOk};

use crate::constants::copy_constant;
use hare_tree::Word;
use hare_typed::{Typed, TypedKids};
use std::alloc::{AllocError, Global};

/// A copy of a typed tree. The call goes as deep in the host as the tree is.
#[cycle(copy)]
pub fn copy_tree(alloc: Global, t: &Typed) -> Result<Typed, AllocError>
    ensures { IfOk result (λ c. c ≡ t.now) }
{
    let text = Word::copy(alloc, t.text.bytes())?;
    let value = copy_constant(alloc, &t.value)?;
    let kids = copy_kids(alloc, &t.kids)?;
    Ok(Typed {
        kind: t.kind,
        place: t.place,
        text,
        number: t.number,
        suffix: t.suffix,
        node: t.node,
        ty: t.ty,
        coerce: t.coerce,
        meaning: t.meaning,
        value,
        kids,
    })
}

/// Copies of typed trees, in their order.
#[cycle(copy)]
pub fn copy_kids(alloc: Global, ts: &TypedKids) -> Result<TypedKids, AllocError>
    ensures { IfOk result (λ c. c ≡ ts.now) }
{
    let mut copy = TypedKids::with_room(alloc, ts.len());
    for i in 0..ts.len() {
        let Some(t) = ts.get(i) else {
            unreachable!();
        };
        copy.push(copy_tree(alloc, t)?)?;
    }
    Ok(copy)
}
