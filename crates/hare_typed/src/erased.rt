//! The untyped tree of a typed one.

ghost use Rattle.std.specs.Prelude.{◌≡◌, IfOk, map};
ghost use Rattle.hare_typed.specs.Erased.{erase as erased};

use crate::typed::{Typed, TypedKids};
use hare_tree::{Kids, Tree, Word};
use std::alloc::{AllocError, Global};

/// The tree without what checking found: its kinds, places, texts, numbers, suffixes and kids. The call goes as deep in the host as the
/// tree is. It fails for want of memory alone.
#[cycle(erase)]
pub fn erase(alloc: Global, t: &Typed) -> Result<Tree, AllocError>
    ensures { IfOk result (λ u. u ≡ erased t.now) }
{
    let text = Word::copy(alloc, t.text.bytes())?;
    let kids = erase_kids(alloc, &t.kids)?;
    Ok(Tree {
        kind: t.kind,
        place: t.place,
        text,
        number: t.number,
        suffix: t.suffix,
        kids,
    })
}

/// The untyped trees of typed ones.
#[cycle(erase)]
fn erase_kids(alloc: Global, ts: &TypedKids) -> Result<Kids, AllocError>
    ensures { IfOk result (λ us. us ≡ map erased ts.now) }
{
    let mut kids = Kids::new(alloc);
    for i in 0..ts.len() {
        let Some(t) = ts.get(i) else {
            return Ok(kids);
        };
        kids.push(erase(alloc, t)?)?;
    }
    Ok(kids)
}
