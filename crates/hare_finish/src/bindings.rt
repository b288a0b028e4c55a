//! Defs and globals.

ghost use Rattle.std.specs.Prelude.{◌≡◌, Option, IfOk};
ghost use Rattle.hare_typed.specs.Typed.{TypedNode};
ghost use Rattle.rule_judge.specs.Grown.{IsGrown};
ghost use Rattle.hare_defined.specs.Known.{AreDefined};
ghost use Rattle.hare_finish.specs.Finished.{IsFinished};
ghost use Rattle.hare_finish.specs.Made as made;
ghost use Rattle.hare_finish.specs.Made.{type_as, IsVoid, IsLeafOrWritten, IsBindingMade};

use crate::nodes::{front, has_kids, kid, node, plain};
use crate::unnumbered::copy_unnumbered;
use crate::values::declared_coercion;
use hare_defined::Defined;
use hare_tree::{Kind, Tree};
use hare_typed::{Typed, TypedKids};
use hare_types::{Coercion, TypeId, TypeStore};
use std::alloc::{AllocError, Global};

/// Whether a declaration of this kind is a def or a global.
fn is_binding(k: Kind) -> bool
    ensures { result ≡ made.is_binding k }
{
    matches!(k, Kind::Def | Kind::GlobalLet | Kind::GlobalConst)
}

/// The written type, or what stands where it is left out, of which this is the tree. Types that are not those of the tree are answered as
/// want of memory.
fn type_part(alloc: Global, void: TypeId, t: &Tree, types: &TypedKids) -> Result<Typed, AllocError>
    ensures tree { IfOk result (λ x. x ≡ type_as void t.now types.now) }
    ensures leaf { IfOk result (λ x. IsLeafOrWritten t.now types.now) }
{
    let is_written = t.kind != Kind::None;
    if types.len() != usize::from(is_written) {
        return Err(AllocError);
    }
    match types.get(0) {
        Some(written) => copy_unnumbered(alloc, written),
        None => plain(alloc, void, t),
    }
}

/// The tree of a def or a global, whose value goes to its type by this coercion.
fn binding(
    alloc: Global,
    void: TypeId,
    decl: &Tree,
    types: &TypedKids,
    value: Typed,
    coerce: Coercion,
) -> Result<Typed, AllocError>
    ensures { IfOk result (IsBindingMade void decl.now types.now value coerce) }
{
    if !has_kids(decl, 4) {
        return Err(AllocError);
    }
    let mut kids = front(alloc, void, decl)?;
    kids.push(type_part(alloc, void, kid(decl, 2), types)?)?;
    kids.push(value)?;
    kids.settle(3, coerce);
    node(alloc, void, 0, decl, kids)
}

/// The finished tree of a def or a global with this value; another kind is answered as want of memory, and so is a type that mentions a
/// name which is not defined.
pub(crate) fn finish_binding(
    alloc: Global,
    s: &mut TypeStore,
    defined: &mut Defined,
    void: TypeId,
    decl: &Tree,
    types: &TypedKids,
    value: Typed,
) -> Result<Typed, AllocError>
    requires void { IsVoid s.old void }
    requires known { AreDefined s.old defined.old }
    ensures ok { IfOk result (λ d. (b : Option TypedNode) → IsFinished s.new decl.now types.now (Some value) b d) }
    ensures known { AreDefined s.new defined.new }
    ensures grown { IsGrown s.old s.new }
{
    let _law = s.declarations();
    if !is_binding(decl.kind) {
        return Err(AllocError);
    }
    let coerce = declared_coercion(s, defined, types, &value)?;
    binding(alloc, void, decl, types, value, coerce)
}
