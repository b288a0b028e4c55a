//! The tree of a node, with what has been found of it.

ghost use Rattle.std.specs.Prelude.{◌≡◌, IfOk};
ghost use Rattle.hare_tree.specs.Node.{head};
ghost use Rattle.hare_typed.specs.Typed.{marked, typed_nodes};
ghost use Rattle.hare_find.specs.Marks.{mark_of};

use hare_tree::{Meaning, Tree, Word};
use hare_typed::{Const, Typed, TypedKids};
use hare_types::{Coercion, Ty};
use std::alloc::{AllocError, Global};

/// What has been found of a node.
#[derive(Drop)]
pub struct Found {
    /// Its number.
    pub node: u32,
    /// The type of what it gives, before its coercion.
    pub ty: Ty,
    /// What becomes of that at its site.
    pub own: Coercion,
    /// What the names say of it, where it is a path.
    pub meaning: Meaning,
    /// Its constant.
    pub value: Const,
}

/// The tree of a node with these kids.
pub fn typed(alloc: Global, node: &Tree, found: Found, kids: TypedKids) -> Result<Typed, AllocError>
    ensures { IfOk result (λ x. x ≡ marked (head node.now) (mark_of found) (typed_nodes kids)) }
{
    let text = Word::copy(alloc, node.text.bytes())?;
    Ok(Typed {
        kind: node.kind,
        place: node.place,
        text,
        number: node.number,
        suffix: node.suffix,
        node: found.node,
        ty: found.ty,
        coerce: found.own,
        meaning: found.meaning,
        value: found.value,
        kids,
    })
}
