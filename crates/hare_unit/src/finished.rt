//! The finished trees of all declarations.

ghost use Rattle.std.specs.Prelude.{◌≡◌, true, IfOk, Contains};
ghost use Rattle.hare_tree.specs.declared.form.Sort.TheVariants as sorts;
ghost use Rattle.hare_tree.specs.Node.{Node};
ghost use Rattle.hare_tree.specs.Shape.{is_shaped};
ghost use Rattle.hare_types.specs.Sound.{IsStore};
ghost use Rattle.hare_saids.specs.Saids.{decls};
ghost use Rattle.hare_steps.specs.Plans.{ArePlaces};
ghost use Rattle.hare_walk.specs.Grown.{IsGrown};
ghost use Rattle.hare_joined.specs.Joined.{AreFinished};
ghost use Rattle.hare_unit.specs.Finishing.{TakesBody};

use crate::reversed::reversed;
use hare_declarations::Parts;
use hare_defined::Defined;
use hare_finish::finish_declaration;
use hare_steps::{DeclPlace, declaration_at};
use hare_tree::{FileTree, Kind, Tree};
use hare_typed::{Typed, TypedKids};
use hare_types::TypeStore;
use hx_base::Items;
use std::alloc::{AllocError, Global};

/// The finished trees of all declarations, each from its parts and a function with its body. Parts of other declarations, and bodies of
/// others, are answered as want of memory.
pub(crate) fn finish_all(
    alloc: Global,
    s: &mut TypeStore,
    files: &Items<FileTree>,
    places: &[DeclPlace],
    parts: Items<Parts>,
    bodies: Items<Typed>,
) -> Result<TypedKids, AllocError>
    requires places { ArePlaces files.now places.now }
    requires shaped { (t : Node) → Contains (decls files.now) t → is_shaped sorts.Decl t ≡ true }
    ensures ok { IfOk result (AreFinished s.new (decls files.now) parts bodies) }
    ensures grown { IsGrown s.old s.new }
    ensures sound { IsStore s.new }
{
    let _law = s.declarations();
    let mut defined = Defined::new(alloc);
    let mut parts = reversed(alloc, parts)?;
    let mut bodies = reversed(alloc, bodies)?;
    let mut finished = TypedKids::with_room(alloc, places.len());
    for i in 0..places.len() {
        let Ok(number) = u32::try_from(i) else {
            return Err(AllocError);
        };
        let Some(decl) = declaration_at(files, places, number) else {
            return Err(AllocError);
        };
        let Some(Parts { types, value }) = parts.pop() else {
            return Err(AllocError);
        };
        let body = body_of(decl, &mut bodies)?;
        let tree = finish_declaration(alloc, s, &mut defined, decl, &types, value, body)?;
        finished.push(tree)?;
    }
    if !parts.is_empty() || !bodies.is_empty() {
        return Err(AllocError);
    }
    Ok(finished)
}

/// The body that a declaration takes: a function the next, any other none.
fn body_of(decl: &Tree, bodies: &mut Items<Typed>) -> Result<Option<Typed>, AllocError>
    ensures { IfOk result (TakesBody decl.now bodies.old bodies.new) }
{
    if decl.kind != Kind::Fn {
        return Ok(None);
    }
    match bodies.pop() {
        Some(body) => Ok(Some(body)),
        None => Err(AllocError),
    }
}
