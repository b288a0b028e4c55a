//! What allocations are asked for.

ghost use Rattle.std.specs.Prelude.{◌≡◌, IfOk, IfSome, slice_get, length, Some};
ghost use Rattle.hare_tree.specs.declared.kind.Kind.TheVariants as ki;
ghost use Rattle.hare_tree.specs.Node.{head, nodes_of};
ghost use Rattle.hare_types.specs.Store.{Store};
ghost use Rattle.hare_types.specs.Later.{IsLater};
ghost use Rattle.hare_typed.specs.Typed.{typed_nodes};
ghost use Rattle.hare_rules.specs.Above as above;
ghost use Rattle.hare_rules.specs.Context.{Setting};
ghost use Rattle.hare_rules.specs.Words as words;
ghost use Rattle.rule_judge.specs.Defined.{IsDefined, IsDefinedHint, IsDefinedName, IsRefusable, AreDefinedTrees};
ghost use Rattle.rule_ctl.specs.Tried.{element_of, made_of};
ghost use Rattle.hare_typed.specs.Given.{base_row};
ghost use Rattle.hare_types.specs.declared.coercion.Ty.TheVariants.{Of};
ghost use Rattle.rule_judge.specs.Grown.{IsGrown};
ghost use Rattle.hare_above.specs.Asked.{asked_as, rest_in};

use crate::asking::{Asking, hint_to, word_hint};
use crate::values::id_at;
use hare_rules::Hint;
use hare_tree::{Kids, Kind, Tree};
use hare_types::{Row, Scalar, Ty, TypeId, TypeStore};
use rule_judge::{asked, base_row, pointer_to, refusable, slice_of, type_at};
use rule_mem::{object_asked, slice_element};
use std::alloc::{AllocError, Global};

/// Whether the tree is an allocation, in parentheses or not. The call goes as deep in the host as the tree is.
#[cycle(allocates)]
fn allocates(tree: &Tree) -> bool
    ensures { result ≡ above.allocates tree.now }
{
    match tree.kind {
        Kind::Alloc => true,
        Kind::Paren => first_allocates(&tree.kids),
        _ => false,
    }
}

/// Whether the first of the trees is an allocation.
#[cycle(allocates)]
fn first_allocates(trees: &Kids) -> bool
    ensures { result ≡ above.first_allocates (nodes_of trees.now) }
{
    match trees.get(0) {
        Some(tree) => allocates(tree),
        None => false,
    }
}

/// To what the base of the type points, which may be null or not.
fn pointee(s: &TypeStore, t: TypeId) -> Option<TypeId>
    requires { IsDefined s.now t }
    ensures value { (f : Store) → IsLater s.now f → result ≡ above.leads_to (base_row f (Of t)) }
    ensures defined { IfSome result (IsDefined s.now) }
{
    match base_row(s, &Ty::Of(t)) {
        Some(Row::Pointer(u)) => Some(*u),
        Some(Row::Nullable(u)) => Some(*u),
        _ => None,
    }
}

/// The element of the slice or array that is the base of the type.
fn element(s: &TypeStore, t: TypeId) -> Option<TypeId>
    requires { IsDefined s.now t }
    ensures value { (f : Store) → IsLater s.now f → result ≡ element_of (base_row f (Of t)) }
    ensures defined { IfSome result (IsDefined s.now) }
{
    match base_row(s, &Ty::Of(t)) {
        Some(Row::Slice(u)) => Some(*u),
        Some(Row::Array(_, u)) => Some(*u),
        _ => None,
    }
}

/// What an allocation makes that is asked for a value of the type: a pointer or a slice.
fn made(s: &mut TypeStore, t: TypeId) -> Result<Option<TypeId>, AllocError>
    requires { IsDefined s.old t }
    ensures value { IfOk result (λ o. (f : Store) → IsLater s.new f → o ≡ made_of f t) }
    ensures refusable { IfOk result (λ o. IfSome o (IsRefusable s.new)) }
    ensures grown { IsGrown s.old s.new }
{
    let _law = s.declarations();
    if let Some(u) = pointee(s, t) {
        let p = pointer_to(s, u)?;
        return Ok(Some(p));
    }
    match element(s, t) {
        Some(u) => {
            let p = slice_of(s, u)?;
            Ok(Some(p))
        }
        None => Ok(None),
    }
}

/// The union of what a hint asks an allocation for with the refusal of memory; none where it asks for none.
fn refusable_asked(
    alloc: Global,
    s: &mut TypeStore,
    hint: &Hint,
) -> Result<Option<TypeId>, AllocError>
    requires hint { IsDefinedHint s.old hint.now }
    requires nomem { IsDefinedName s.old words.nomem }
    ensures value { IfOk result (λ o. (w : Setting) → IsLater s.new w.store →
        above.hint_to o ≡ above.refusable_hint w (above.asked w hint.now)) }
    ensures defined { IfOk result (λ o. IfSome o (IsDefined s.new)) }
    ensures grown { IsGrown s.old s.new }
{
    let _law = s.declarations();
    let Some(t) = asked(s, hint) else {
        return Ok(None);
    };
    let Some(p) = made(s, t)? else {
        return Ok(None);
    };
    Ok(Some(refusable(alloc, s, p)?))
}

/// What `?` or `!` asks of its operand: of an allocation what the hint asks for, or the refusal of memory.
pub(crate) fn tried_hint(
    alloc: Global,
    s: &mut TypeStore,
    q: &Asking<'_>,
) -> Result<Hint, AllocError>
    requires own { IsDefinedHint s.old q.now.own }
    requires nomem { IsDefinedName s.old words.nomem }
    ensures tried { IfOk result (λ h. (w : Setting) → IsLater s.new w.store → h ≡ asked_as w q.now ki.Try) }
    ensures forced { IfOk result (λ h. (w : Setting) → IsLater s.new w.store → h ≡ asked_as w q.now ki.Force) }
    ensures defined { IfOk result (IsDefinedHint s.new) }
    ensures grown { IsGrown s.old s.new }
{
    let _law = s.declarations();
    if !allocates(q.kid) {
        return Ok(Hint::None);
    }
    let o = refusable_asked(alloc, s, &q.own)?;
    Ok(hint_to(o))
}

/// The kind of the kid behind the next one; None where there is none.
pub(crate) fn kind_behind(q: &Asking<'_>) -> Kind
    requires { slice_get q.now.kids.now (length q.now.done.now) ≡ Some q.now.kid.now }
    ensures { result ≡ above.next_kind (rest_in q.now) }
{
    let _count = q.kids.len();
    match q.kids.get(q.done.len() + 1) {
        Some(t) => t.kind,
        None => Kind::None,
    }
}

/// What `alloc` asks of its next kid: of the operand what the hint asks for, and a capacity of the type `size`.
pub(crate) fn allocated_hint(s: &mut TypeStore, q: &Asking<'_>) -> Result<Hint, AllocError>
    requires own { IsDefinedHint s.old q.now.own }
    requires next { slice_get q.now.kids.now (length q.now.done.now) ≡ Some q.now.kid.now }
    ensures value { IfOk result (λ h. (w : Setting) → IsLater s.new w.store → h ≡ asked_as w q.now ki.Alloc) }
    ensures defined { IfOk result (IsDefinedHint s.new) }
    ensures grown { IsGrown s.old s.new }
{
    let _law = s.declarations();
    if q.done.len() != 0 {
        return word_hint(s, Scalar::Size);
    }
    if kind_behind(q) == Kind::None {
        return Ok(hint_to(object_asked(s, &q.own)));
    }
    Ok(hint_to(asked(s, &q.own)))
}

/// What `append` asks of its next kid: behind a slice an element of it, or, with `...`, a slice of its type.
pub(crate) fn appended_hint(s: &TypeStore, q: &Asking<'_>) -> Hint
    requires done { AreDefinedTrees s.now (typed_nodes q.now.done.now) }
    requires next { slice_get q.now.kids.now (length q.now.done.now) ≡ Some q.now.kid.now }
    ensures value { (w : Setting) → IsLater s.now w.store → result ≡ asked_as w q.now ki.Append }
    ensures defined { IsDefinedHint s.now result }
{
    if q.done.len() != 1 {
        return Hint::None;
    }
    let slice = type_at(q.done, 0);
    let Some(element) = slice_element(s, &slice) else {
        return Hint::None;
    };
    match kind_behind(q) {
        Kind::None => Hint::Of(element),
        _ => hint_to(id_at(q.done, 0)),
    }
}
