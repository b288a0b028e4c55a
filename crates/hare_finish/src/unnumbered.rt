//! Copies of written types: no node in them has a number.

ghost use Rattle.std.specs.Prelude.{◌≡◌, IfOk, map};
ghost use Rattle.hare_whole.specs.Declared as spec;

use hare_copies::copy_constant;
use hare_tree::Word;
use hare_typed::{Typed, TypedKids};
use std::alloc::{AllocError, Global};

/// A copy of a typed tree in which each node has the number 0. The call goes as deep in the host as the tree is.
#[cycle(unnumbered)]
pub(crate) fn copy_unnumbered(alloc: Global, t: &Typed) -> Result<Typed, AllocError>
    ensures { IfOk result (λ x. x ≡ spec.unnumbered t.now) }
{
    let text = Word::copy(alloc, t.text.bytes())?;
    let value = copy_constant(alloc, &t.value)?;
    let kids = copy_each(alloc, &t.kids)?;
    Ok(Typed {
        kind: t.kind,
        place: t.place,
        text,
        number: t.number,
        suffix: t.suffix,
        node: 0,
        ty: t.ty,
        coerce: t.coerce,
        meaning: t.meaning,
        value,
        kids,
    })
}

/// Such copies of some trees, in their order.
#[cycle(unnumbered)]
fn copy_each(alloc: Global, ts: &TypedKids) -> Result<TypedKids, AllocError>
    ensures { IfOk result (λ xs. xs ≡ map spec.unnumbered ts.now) }
{
    let mut kids = TypedKids::with_room(alloc, ts.len());
    for i in 0..ts.len() {
        let Some(t) = ts.get(i) else {
            unreachable!();
        };
        kids.push(copy_unnumbered(alloc, t)?)?;
    }
    Ok(kids)
}
