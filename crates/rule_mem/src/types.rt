//! The types of nodes that meet their own rows.

ghost use Rattle.std.specs.Prelude.{◌≡◌, true, Some, None, is_some, IsSome, IfOk};
ghost use Rattle.hare_tree.specs.declared.kind.Kind.TheVariants as ki;
ghost use Rattle.hare_types.specs.Store.{Store};
ghost use Rattle.hare_types.specs.Later.{IsLater};
ghost use Rattle.hare_rules.specs.Aggregates as spec;
ghost use Rattle.hare_rules.specs.Words as words;
ghost use Rattle.hare_rules.specs.Rows.{holds};
ghost use Rattle.hare_rules.specs.Types.{type_by, type_of};
ghost use Rattle.hare_rules.specs.declared.row_id.RowId.TheVariants as row;
ghost use Rattle.hare_types.specs.declared.row.Scalar.TheVariants as keyword;
ghost use Rattle.hare_typed.specs.Given as given;
ghost use Rattle.hare_typed.specs.Order.{tree_from_front};
ghost use Rattle.rule_judge.specs.Defined.{IsDefinedTy, IsDefinedName};
ghost use Rattle.rule_judge.specs.Grown.{IsGrown};
ghost use Rattle.rule_mem.specs.Needs.{IsReady};
ghost use Rattle.rule_judge.specs.Asked.{own_failing};
ghost use Rattle.rule_judge.specs.Turns.{context_in, kind_in, IsTurn};
ghost use Rattle.rule_mem.specs.Kinds.{judges};

use crate::allocs::{default_of, has_capacity};
use crate::reached::{element_reached, member_reached};
use crate::reads::element;
use crate::rows::pointed;
use crate::{arrays, paths, tuples};
use hare_tree::Kind;
use hare_types::{Scalar, Ty, TypeStore};
use rule_judge::{Turn, own, pointer_to, refusable, seen, slice_of, word};
use std::alloc::{AllocError, Global};

/// The type that is written by one word.
fn word_type(s: &mut TypeStore, k: Scalar) -> Result<Ty, AllocError>
    ensures value { IfOk result (λ a. (f : Store) → IsLater s.new f → words.typed_as (words.word_id f k) ≡ Some a) }
    ensures defined { IfOk result (IsDefinedTy s.new) }
    ensures grown { IsGrown s.old s.new }
{
    let u = word(s, k)?;
    Ok(Ty::Of(u))
}

/// The type of what is indexed.
fn index_type(s: &TypeStore, t: &Turn<'_>) -> Ty
    requires turn { IsTurn s.now t.now }
    requires met { (f : Store) → IsLater s.now f → holds row.IndexIndexable (context_in f t.now) ≡ true }
    ensures value { (f : Store) → IsLater s.now f → type_by (context_in f t.now) ki.Index ≡ Some result }
    ensures defined { IsDefinedTy s.now result }
{
    let _law = s.declarations();
    match element_reached(s, t) {
        Some(u) => Ty::Of(u),
        None => unreachable!(),
    }
}

/// The type of a slice of what is sliced.
fn slice_type(s: &mut TypeStore, t: &Turn<'_>) -> Result<Ty, AllocError>
    requires turn { IsTurn s.old t.now }
    requires met { (f : Store) → IsLater s.old f → holds row.SliceIndexable (context_in f t.now) ≡ true }
    ensures value { IfOk result (λ a. (f : Store) → IsLater s.new f → type_by (context_in f t.now) ki.Slice ≡ Some a) }
    ensures defined { IfOk result (IsDefinedTy s.new) }
    ensures grown { IsGrown s.old s.new }
{
    let _law = s.declarations();
    match element_reached(s, t) {
        Some(u) => {
            let made = slice_of(s, u)?;
            Ok(Ty::Of(made))
        }
        None => unreachable!(),
    }
}

/// The type of a member.
fn member_type(s: &TypeStore, t: &Turn<'_>) -> Ty
    requires turn { IsTurn s.now t.now }
    requires met { (f : Store) → IsLater s.now f → holds row.FieldMember (context_in f t.now) ≡ true }
    ensures value { (f : Store) → IsLater s.now f → type_by (context_in f t.now) ki.Field ≡ Some result }
    ensures defined { IsDefinedTy s.now result }
{
    let _law = s.declarations();
    match member_reached(s, t) {
        Some(u) => Ty::Of(u),
        None => unreachable!(),
    }
}

/// The type of what a pointer leads to.
fn pointed_type(s: &TypeStore, t: &Turn<'_>) -> Ty
    requires turn { IsTurn s.now t.now }
    requires met { (f : Store) → IsLater s.now f → holds row.DerefPointed (context_in f t.now) ≡ true }
    ensures value { (f : Store) → IsLater s.now f → type_by (context_in f t.now) ki.Deref ≡ Some result }
    ensures defined { IsDefinedTy s.now result }
{
    let _law = s.declarations();
    match pointed(s, t) {
        Some(u) => Ty::Of(u),
        None => unreachable!(),
    }
}

/// The type of an address.
fn address_type(s: &mut TypeStore, t: &Turn<'_>) -> Result<Ty, AllocError>
    requires turn { IsTurn s.old t.now }
    requires typed { IsSome (words.id_in (given.given (tree_from_front 0 t.now.kids.now))) }
    ensures value { IfOk result (λ a. (f : Store) → IsLater s.new f → type_by (context_in f t.now) ki.Addr ≡ Some a) }
    ensures defined { IfOk result (IsDefinedTy s.new) }
    ensures grown { IsGrown s.old s.new }
{
    let _law = s.declarations();
    let operand = seen(t, 0);
    let Ty::Of(u) = operand else {
        unreachable!();
    };
    let made = pointer_to(s, u)?;
    Ok(Ty::Of(made))
}

/// The type of an allocation with a capacity.
fn sequence_type(alloc: Global, s: &mut TypeStore, t: &Turn<'_>) -> Result<Ty, AllocError>
    requires turn { IsTurn s.old t.now }
    requires nomem { IsDefinedName s.old words.nomem }
    requires met { (f : Store) → IsLater s.old f →
        is_some (given.element_in (given.base_row f (given.given (tree_from_front 0 t.now.kids.now)))) ≡ true }
    ensures value { IfOk result (λ a. (f : Store) → IsLater s.new f →
        spec.refusable f (spec.slice_of f (given.element_in (given.base_row f (given.given (tree_from_front 0 t.now.kids.now))))) ≡ Some
        a) }
    ensures defined { IfOk result (IsDefinedTy s.new) }
    ensures grown { IsGrown s.old s.new }
{
    let _law = s.declarations();
    let operand = seen(t, 0);
    let Some(u) = element(s, &operand) else {
        unreachable!();
    };
    let made = slice_of(s, u)?;
    let whole = refusable(alloc, s, made)?;
    Ok(Ty::Of(whole))
}

/// The type of an allocation of one operand.
fn object_pointer(alloc: Global, s: &mut TypeStore, t: &Turn<'_>) -> Result<Ty, AllocError>
    requires turn { IsTurn s.old t.now }
    requires nomem { IsDefinedName s.old words.nomem }
    requires met { words.has_default (given.given (tree_from_front 0 t.now.kids.now)) ≡ true }
    ensures value { IfOk result (λ a. (f : Store) → IsLater s.new f →
        spec.refusable f (spec.pointer_to f (words.default_in f (given.given (tree_from_front 0 t.now.kids.now)))) ≡ Some a) }
    ensures defined { IfOk result (IsDefinedTy s.new) }
    ensures grown { IsGrown s.old s.new }
{
    let _law = s.declarations();
    let operand = seen(t, 0);
    let u = default_of(s, &operand)?;
    let made = pointer_to(s, u)?;
    let whole = refusable(alloc, s, made)?;
    Ok(Ty::Of(whole))
}

/// The type of an allocation.
fn alloc_type(alloc: Global, s: &mut TypeStore, t: &Turn<'_>) -> Result<Ty, AllocError>
    requires turn { IsTurn s.old t.now }
    requires nomem { IsDefinedName s.old words.nomem }
    requires object { (f : Store) → IsLater s.old f → holds row.AllocDefault (context_in f t.now) ≡ true }
    requires sequence { (f : Store) → IsLater s.old f → holds row.AllocSequence (context_in f t.now) ≡ true }
    ensures value { IfOk result (λ a. (f : Store) → IsLater s.new f → type_by (context_in f t.now) ki.Alloc ≡ Some a) }
    ensures defined { IfOk result (IsDefinedTy s.new) }
    ensures grown { IsGrown s.old s.new }
{
    let _law = s.declarations();
    if has_capacity(t) {
        let a = sequence_type(alloc, s, t)?;
        return Ok(a);
    }
    let a = object_pointer(alloc, s, t)?;
    Ok(a)
}

/// The type of `append`.
fn append_type(alloc: Global, s: &mut TypeStore) -> Result<Ty, AllocError>
    requires { IsDefinedName s.old words.nomem }
    ensures value { IfOk result (λ a. (f : Store) → IsLater s.new f → spec.refusable f (words.word_id f keyword.Void) ≡ Some a) }
    ensures defined { IfOk result (IsDefinedTy s.new) }
    ensures grown { IsGrown s.old s.new }
{
    let _law = s.declarations();
    let void = word(s, Scalar::Void)?;
    let whole = refusable(alloc, s, void)?;
    Ok(Ty::Of(whole))
}

/// The type of a node of these kinds that meets its own rows.
pub(crate) fn own_type(alloc: Global, s: &mut TypeStore, t: &Turn<'_>) -> Result<Ty, AllocError>
    requires kind { judges (kind_in t.now) ≡ true }
    requires turn { IsTurn s.old t.now }
    requires needs { IsReady s.old t.now }
    requires rows { (f : Store) → IsLater s.old f → own_failing (context_in f t.now) ≡ None }
    ensures value { IfOk result (λ a. (f : Store) → IsLater s.new f → type_of (context_in f t.now) ≡ Some a) }
    ensures defined { IfOk result (IsDefinedTy s.new) }
    ensures grown { IsGrown s.old s.new }
{
    let _law = s.declarations();
    let node = t.node;
    match node.kind {
        Kind::Path => {
            let a = paths::value_type(s, t)?;
            Ok(a)
        }
        Kind::Deref => Ok(pointed_type(s, t)),
        Kind::Addr => {
            let a = address_type(s, t)?;
            Ok(a)
        }
        Kind::Field => Ok(member_type(s, t)),
        Kind::StructLit => Ok(own(t, 0)),
        Kind::Tuple => {
            let a = tuples::tuple_type(alloc, s, t)?;
            Ok(a)
        }
        Kind::Array => {
            let a = arrays::array_type(s, t)?;
            Ok(a)
        }
        Kind::Index => Ok(index_type(s, t)),
        Kind::Slice => {
            let a = slice_type(s, t)?;
            Ok(a)
        }
        Kind::Alloc => {
            let a = alloc_type(alloc, s, t)?;
            Ok(a)
        }
        Kind::Append => {
            let a = append_type(alloc, s)?;
            Ok(a)
        }
        Kind::Len | Kind::Offset => {
            let a = word_type(s, Scalar::Size)?;
            Ok(a)
        }
        _ => {
            let a = word_type(s, Scalar::Void)?;
            Ok(a)
        }
    }
}
