//! What assignments, elements and aggregates ask of their parts.

ghost use Rattle.std.specs.Prelude.{◌≡◌, IfOk, IfSome, slice_get, Some};
ghost use Rattle.hare_tree.specs.declared.kind.Kind.TheVariants as ki;
ghost use Rattle.hare_types.specs.Store.{Store};
ghost use Rattle.hare_types.specs.Later.{IsLater};
ghost use Rattle.hare_typed.specs.Typed.{typed_nodes};
ghost use Rattle.hare_rules.specs.Above as above;
ghost use Rattle.hare_rules.specs.Context.{Setting};
ghost use Rattle.hare_rules.specs.Words as words;
ghost use Rattle.hare_typed.specs.Order.{tree_from_front};
ghost use Rattle.hare_rules.specs.Context.{own_type};
ghost use Rattle.rule_judge.specs.Defined.{IsDefined, IsDefinedHint, AreDefinedTrees};
ghost use Rattle.rule_judge.specs.Grown.{IsGrown};
ghost use Rattle.hare_above.specs.Asked.{asked_as};
ghost use Rattle.std.specs.Prelude.{length};

use crate::asking::{Asking, hint_to, word_hint};
use hare_rules::Hint;
use hare_typed::TypedKids;
use hare_types::{Scalar, Ty, TypeId, TypeStore};
use rule_judge::{default_in, type_at};
use rule_mem::{field_of, hinted_components, hinted_element};
use std::alloc::AllocError;

/// The id of the type of what a kid gives; none where it has none.
pub(crate) fn id_at(kids: &TypedKids, i: usize) -> Option<TypeId>
    ensures value { result ≡ words.id_in (own_type (tree_from_front i kids.now)) }
    ensures defined { (s : Store) → AreDefinedTrees s (typed_nodes kids.now) → IfSome result (IsDefined s) }
{
    match type_at(kids, i) {
        Ty::Of(t) => Some(t),
        Ty::Iconst(_) | Ty::Null | Ty::Empty => None,
    }
}

/// What an assignment asks of its next kid: of the right side a value of the type of the left one.
pub(crate) fn assigned_hint(q: &Asking<'_>) -> Hint
    ensures value { (w : Setting) → result ≡ asked_as w q.now ki.Assign }
    ensures defined { (s : Store) → AreDefinedTrees s (typed_nodes q.now.done.now) → IsDefinedHint s result }
{
    if q.done.len() != 1 {
        return Hint::None;
    }
    hint_to(id_at(q.done, 0))
}

/// What an index or a slice asks of its next kid: of each but the operand a value of the type `size`.
pub(crate) fn bound_hint(s: &mut TypeStore, q: &Asking<'_>) -> Result<Hint, AllocError>
    ensures index { IfOk result (λ h. (w : Setting) → IsLater s.new w.store → h ≡ asked_as w q.now ki.Index) }
    ensures slice { IfOk result (λ h. (w : Setting) → IsLater s.new w.store → h ≡ asked_as w q.now ki.Slice) }
    ensures defined { IfOk result (IsDefinedHint s.new) }
    ensures grown { IsGrown s.old s.new }
{
    let _law = s.declarations();
    if q.done.len() == 0 {
        return Ok(Hint::None);
    }
    word_hint(s, Scalar::Size)
}

/// What a struct literal asks of its next kid: of a value that it has the type of the field with its name.
pub(crate) fn field_hint(s: &TypeStore, q: &Asking<'_>) -> Hint
    requires { AreDefinedTrees s.now (typed_nodes q.now.done.now) }
    ensures value { (w : Setting) → IsLater s.now w.store → result ≡ asked_as w q.now ki.StructLit }
    ensures defined { IsDefinedHint s.now result }
{
    let _law = s.declarations();
    if q.done.len() == 0 {
        return Hint::None;
    }
    let kid = q.kid;
    hint_to(field_of(s, &type_at(q.done, 0), kid.text.bytes()))
}

/// Component number `i`, counted from 0; none where there are not so many.
fn component(types: &[TypeId], i: usize) -> Option<TypeId>
    ensures { result ≡ slice_get types.now i }
{
    types.get(i).copied()
}

/// What a tuple asks of its next kid: of an item the component that the hint has there.
pub(crate) fn component_hint(s: &TypeStore, q: &Asking<'_>) -> Hint
    requires next { slice_get q.now.kids.now (length q.now.done.now) ≡ Some q.now.kid.now }
    requires own { IsDefinedHint s.now q.now.own }
    ensures value { (w : Setting) → IsLater s.now w.store → result ≡ asked_as w q.now ki.Tuple }
    ensures defined { IsDefinedHint s.now result }
{
    let items = q.kids.len().saturating_sub(1);
    match hinted_components(s, &q.own, items) {
        Some(types) => hint_to(component(types, q.done.len())),
        None => Hint::None,
    }
}

/// What an array asks of its next kid: of an item the element of the hint, else, behind the first, the default of the first.
pub(crate) fn item_hint(s: &mut TypeStore, q: &Asking<'_>) -> Result<Hint, AllocError>
    requires own { IsDefinedHint s.old q.now.own }
    requires done { AreDefinedTrees s.old (typed_nodes q.now.done.now) }
    ensures value { IfOk result (λ h. (w : Setting) → IsLater s.new w.store → h ≡ asked_as w q.now ki.Array) }
    ensures defined { IfOk result (IsDefinedHint s.new) }
    ensures grown { IsGrown s.old s.new }
{
    let _law = s.declarations();
    if let Some(t) = hinted_element(s, &q.own) {
        return Ok(Hint::Of(t));
    }
    if q.done.len() == 0 {
        return Ok(Hint::None);
    }
    let first = type_at(q.done, 0);
    let o = default_in(s, &first)?;
    Ok(hint_to(o))
}
