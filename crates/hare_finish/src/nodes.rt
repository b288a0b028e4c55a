//! Nodes of which nothing is asked but that they stand in the declaration.

ghost use Rattle.std.specs.Prelude.{◌≡◌, true, length, IfOk};
ghost use Rattle.hare_tree.specs.Node.{head};
ghost use Rattle.hare_typed.specs.Typed.{marked, typed_nodes};
ghost use Rattle.hare_modules.specs.Uses as uses;
ghost use Rattle.hare_finish.specs.Made.{void_mark, plain_as, IsLeaf, IsFront};

use hare_tree::{Meaning, Tree, Word};
use hare_typed::{Const, Typed, TypedKids};
use hare_types::{Coercion, Ty, TypeId};
use std::alloc::{AllocError, Global};

/// The kid with so many kids before it; a tree that has no such kid stands for it.
pub(crate) fn kid(t: &Tree, i: usize) -> &Tree
    ensures { result.now ≡ uses.kid t.now i }
{
    match t.kids.get(i) {
        Some(k) => k,
        None => t,
    }
}

/// Whether a tree has so many kids.
pub(crate) fn has_kids(t: &Tree, count: usize) -> bool
    ensures { result ≡ true → length (uses.kids t.now) ≡ count }
{
    t.kids.len() == count
}

/// The tree of a node that is void and means nothing, with this number and these kids.
pub(crate) fn node(
    alloc: Global,
    void: TypeId,
    number: u32,
    t: &Tree,
    kids: TypedKids,
) -> Result<Typed, AllocError>
    ensures { IfOk result (λ x. x ≡ marked (head t.now) (void_mark void number) (typed_nodes kids)) }
{
    let text = Word::copy(alloc, t.text.bytes())?;
    Ok(Typed {
        kind: t.kind,
        place: t.place,
        text,
        number: t.number,
        suffix: t.suffix,
        node: number,
        ty: Ty::Of(void),
        coerce: Coercion {
            row: 1,
            to: Ty::Of(void),
        },
        meaning: Meaning::None,
        value: Const::Absent,
        kids,
    })
}

/// The tree of a node of which nothing is asked, and in which nothing stands; what has kids is answered as want of memory.
pub(crate) fn plain(alloc: Global, void: TypeId, t: &Tree) -> Result<Typed, AllocError>
    ensures tree { IfOk result (λ x. x ≡ plain_as void t.now) }
    ensures leaf { IfOk result (λ x. IsLeaf t.now) }
{
    if t.kids.len() != 0 {
        return Err(AllocError);
    }
    node(alloc, void, 0, t, TypedKids::new(alloc))
}

/// The first kids of a declaration: `export`, where it stands there, and the name.
pub(crate) fn front(alloc: Global, void: TypeId, decl: &Tree) -> Result<TypedKids, AllocError>
    ensures { IfOk result (IsFront void decl.now) }
{
    let mut kids = TypedKids::with_room(alloc, decl.kids.len());
    kids.push(plain(alloc, void, kid(decl, 0))?)?;
    kids.push(plain(alloc, void, kid(decl, 1))?)?;
    Ok(kids)
}
