//! Errors that are handed on by `?`, and those that `!` rules out.

ghost use Rattle.std.specs.Prelude.{◌≡◌, true, ℕ, Contains, filter, IfOk, IfSome, Some};
ghost use Rattle.hare_tree.specs.declared.kind.Kind.TheVariants as ki;
ghost use Rattle.hare_types.specs.ByIds.{is_error_at};
ghost use Rattle.hare_types.specs.Store.{Store};
ghost use Rattle.hare_types.specs.Later.{IsLater};
ghost use Rattle.hare_types.specs.declared.coercion.Ty.TheVariants.{Of};
ghost use Rattle.hare_typed.specs.Erased.{erase, erase_each};
ghost use Rattle.hare_typed.specs.Given.{given, base_row};
ghost use Rattle.hare_typed.specs.Order.{tree_from_front};
ghost use Rattle.hare_typed.specs.Typed.{typed_nodes};
ghost use Rattle.hare_rules.specs.Above as above;
ghost use Rattle.hare_rules.specs.Aggregates as spec;
ghost use Rattle.hare_rules.specs.Rows.{holds};
ghost use Rattle.hare_rules.specs.Words as words;
ghost use Rattle.hare_rules.specs.declared.row_id.RowId.TheVariants as row;
ghost use Rattle.rule_judge.specs.Asked.{asks_as};
ghost use Rattle.rule_judge.specs.Defined.{IsDefined, IsDefinedHint, IsDefinedName, IsDefinedTy, IsRefusable};
ghost use Rattle.rule_judge.specs.Grown.{IsGrown};
ghost use Rattle.rule_judge.specs.Turns.{context_in, IsTurn};
ghost use Rattle.rule_ctl.specs.Tried.{rejected, element_of, made_of, asks_refusable};

use hare_rules::Hint;
use hare_tree::Kind;
use hare_typed::{Typed, TypedKids};
use hare_types::{Row, Ty, TypeId, TypeStore};
use rule_judge::{
    Turn, asked, base_row, coerced, has_error_member, is_error, members_in, pointer_to, refusable,
    seen, slice_of, without_errors,
};
use std::alloc::{AllocError, Global};

/// Whether the operand is of a union with an error member.
pub(crate) fn has_errors(s: &TypeStore, t: &Turn<'_>) -> bool
    requires { IsTurn s.now t.now }
    ensures tried { (f : Store) → IsLater s.now f → result ≡ holds row.TryErrors (context_in f t.now) }
    ensures forced { (f : Store) → IsLater s.now f → result ≡ holds row.ForceErrors (context_in f t.now) }
{
    has_error_member(s, &seen(t, 0))
}

/// Whether it is an error type that may not be assigned to the other.
fn is_rejected(s: &TypeStore, u: TypeId, to: TypeId) -> bool
    requires error { IsDefined s.now u }
    requires to { IsDefined s.now to }
    ensures { (f : Store) → IsLater s.now f → result ≡ rejected f u to }
{
    if !is_error(s, u) {
        return false;
    }
    coerced(s, &Ty::Of(u), to).is_none()
}

/// Whether each error type among these may be assigned to the type.
fn all_errors_fit(s: &TypeStore, types: &[TypeId], to: TypeId) -> bool
    requires types { (i : ℕ) → Contains types.now i → IsDefined s.now i }
    requires to { IsDefined s.now to }
    ensures { (f : Store) → IsLater s.now f → result ≡ spec.all_fit f (filter (is_error_at f) types.now) to }
{
    for u in types {
        if is_rejected(s, *u, to) {
            return false;
        }
    }
    true
}

/// Whether each error member of the operand's union may be given as the result of the function.
pub(crate) fn are_returned(s: &TypeStore, t: &Turn<'_>) -> bool
    requires turn { IsTurn s.now t.now }
    requires result { IsDefined s.now t.now.case.now.inside.result }
    ensures { (f : Store) → IsLater s.now f → result ≡ holds row.TryReturned (context_in f t.now) }
{
    let case = t.case;
    match members_in(s, &seen(t, 0)) {
        Some(members) => all_errors_fit(s, members, case.inside.result),
        None => true,
    }
}

/// The type of what is left once the errors are gone.
pub(crate) fn rest_type(alloc: Global, s: &mut TypeStore, t: &Turn<'_>) -> Result<Ty, AllocError>
    requires turn { IsTurn s.old t.now }
    requires met { (f : Store) → IsLater s.old f → words.has_error_member f (given (tree_from_front 0 t.now.kids.now)) ≡ true }
    ensures value { IfOk result (λ a. (f : Store) → IsLater s.new f → spec.rest_type (context_in f t.now) ≡ Some a) }
    ensures defined { IfOk result (IsDefinedTy s.new) }
    ensures grown { IsGrown s.old s.new }
{
    let _law = s.declarations();
    let operand = seen(t, 0);
    let rest = without_errors(alloc, s, &operand)?;
    Ok(Ty::Of(rest))
}

/// Whether the tree is an allocation, in parentheses or not. The call goes as deep in the host as the tree is.
#[cycle(allocates)]
fn allocates(tree: &Typed) -> bool
    ensures { result ≡ above.allocates (erase tree.now) }
{
    match tree.kind {
        Kind::Alloc => true,
        Kind::Paren => first_allocates(&tree.kids),
        _ => false,
    }
}

/// Whether the first of the trees is an allocation.
#[cycle(allocates)]
fn first_allocates(trees: &TypedKids) -> bool
    ensures { result ≡ above.first_allocates (erase_each (typed_nodes trees.now)) }
{
    match trees.get(0) {
        Some(tree) => allocates(tree),
        None => false,
    }
}

/// To what the base of the type points, which may be null or not.
fn pointee(s: &TypeStore, t: TypeId) -> Option<TypeId>
    requires { IsDefined s.now t }
    ensures value { (f : Store) → IsLater s.now f → result ≡ above.leads_to (base_row f (Of t)) }
    ensures defined { IfSome result (IsDefined s.now) }
{
    match base_row(s, &Ty::Of(t)) {
        Some(Row::Pointer(u)) => Some(*u),
        Some(Row::Nullable(u)) => Some(*u),
        _ => None,
    }
}

/// The element of the slice or array that is the base of the type.
fn element(s: &TypeStore, t: TypeId) -> Option<TypeId>
    requires { IsDefined s.now t }
    ensures value { (f : Store) → IsLater s.now f → result ≡ element_of (base_row f (Of t)) }
    ensures defined { IfSome result (IsDefined s.now) }
{
    match base_row(s, &Ty::Of(t)) {
        Some(Row::Slice(u)) => Some(*u),
        Some(Row::Array(_, u)) => Some(*u),
        _ => None,
    }
}

/// What an allocation makes that is asked for a value of the type: a pointer or a slice.
fn made(s: &mut TypeStore, t: TypeId) -> Result<Option<TypeId>, AllocError>
    requires { IsDefined s.old t }
    ensures value { IfOk result (λ o. (f : Store) → IsLater s.new f → o ≡ made_of f t) }
    ensures refusable { IfOk result (λ o. IfSome o (IsRefusable s.new)) }
    ensures grown { IsGrown s.old s.new }
{
    let _law = s.declarations();
    if let Some(u) = pointee(s, t) {
        let p = pointer_to(s, u)?;
        return Ok(Some(p));
    }
    match element(s, t) {
        Some(u) => {
            let p = slice_of(s, u)?;
            Ok(Some(p))
        }
        None => Ok(None),
    }
}

/// Whether a hint asks an allocation under `?` or `!` for a type: the union of what it asks for with the refusal of memory.
fn asks_refusable(alloc: Global, s: &mut TypeStore, hint: &Hint) -> Result<bool, AllocError>
    requires hint { IsDefinedHint s.old hint.now }
    requires nomem { IsDefinedName s.old words.nomem }
    ensures value { IfOk result (λ b. (f : Store) → IsLater s.new f → b ≡ asks_refusable f hint.now) }
    ensures grown { IsGrown s.old s.new }
{
    let _law = s.declarations();
    let Some(t) = asked(s, hint) else {
        return Ok(false);
    };
    let Some(p) = made(s, t)? else {
        return Ok(false);
    };
    refusable(alloc, s, p)?;
    Ok(true)
}

/// Whether `?` or `!` asks its kid number `i` for a type: an allocation, where a hint asks for what it makes.
pub(crate) fn tried_asks(
    alloc: Global,
    s: &mut TypeStore,
    t: &Turn<'_>,
    i: usize,
) -> Result<bool, AllocError>
    requires turn { IsTurn s.old t.now }
    requires nomem { IsDefinedName s.old words.nomem }
    ensures tried { IfOk result (λ b. (f : Store) → IsLater s.new f → b ≡ asks_as (context_in f t.now) i ki.Try) }
    ensures forced { IfOk result (λ b. (f : Store) → IsLater s.new f → b ≡ asks_as (context_in f t.now) i ki.Force) }
    ensures grown { IsGrown s.old s.new }
{
    let _law = s.declarations();
    let case = t.case;
    match t.kids.get(i) {
        Some(kid) => {
            if allocates(kid) {
                asks_refusable(alloc, s, &case.hint)
            } else {
                Ok(false)
            }
        }
        None => Ok(false),
    }
}
