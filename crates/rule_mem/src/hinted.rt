//! What a node asks of its kids, and where they go that were asked for no type.

ghost use Rattle.std.specs.Prelude.{◌≡◌, true, None, nat_eq, length, take, is_some, IfOk, IfSome};
ghost use Rattle.hare_tree.specs.declared.kind.Kind.TheVariants as ki;
ghost use Rattle.hare_types.specs.Store.{Store};
ghost use Rattle.hare_types.specs.Later.{IsLater};
ghost use Rattle.hare_typed.specs.Given.{given};
ghost use Rattle.hare_typed.specs.Order.{tree_from_front};
ghost use Rattle.hare_rules.specs.Context as context;
ghost use Rattle.hare_rules.specs.Settles.{target_of};
ghost use Rattle.hare_rules.specs.Words.{id_in};
ghost use Rattle.rule_judge.specs.Asked.{asks_type};
ghost use Rattle.rule_judge.specs.Defined.{IsDefined};
ghost use Rattle.rule_judge.specs.Grown.{IsGrown};
ghost use Rattle.rule_judge.specs.Turns.{context_in, kind_in, IsTurn};
ghost use Rattle.rule_judge.specs.Asked.{asks_as};
ghost use Rattle.rule_mem.specs.Kinds.{judges};

use crate::allocs::has_capacity;
use crate::hints::object_asked;
use crate::members::field_of;
use crate::reads::slice_element;
use crate::{arrays, tuples};
use hare_tree::Kind;
use hare_typed::TypedKids;
use hare_types::{Scalar, Ty, TypeId, TypeStore};
use rule_judge::{Turn, asked, default_in, kids_before, own, seen, word};
use std::alloc::AllocError;

/// Whether one kid stands before kid number `i`.
fn is_second(t: &Turn<'_>, i: usize) -> bool
    ensures { result ≡ nat_eq (length (take i t.now.kids.now)) 1 }
{
    kids_before(t.kids, i) == 1
}

/// Whether the first kid gives a value of a type.
fn has_type(t: &Turn<'_>) -> bool
    ensures { result ≡ is_some (id_in (given (tree_from_front 0 t.now.kids.now))) }
{
    match seen(t, 0) {
        Ty::Of(_) => true,
        Ty::Iconst(_) | Ty::Null | Ty::Empty => false,
    }
}

/// Whether an assignment asks its kid number `i` for a type: the right side, where the left one has a type.
fn assignment_asks(t: &Turn<'_>, i: usize) -> bool
    ensures { (f : Store) → result ≡ asks_as (context_in f t.now) i ki.Assign }
{
    is_second(t, i) && has_type(t)
}

/// Whether `append` asks its kid number `i` for a type: what is put behind a slice.
fn append_asks(s: &TypeStore, t: &Turn<'_>, i: usize) -> bool
    requires { IsTurn s.now t.now }
    ensures { (f : Store) → IsLater s.now f → result ≡ asks_as (context_in f t.now) i ki.Append }
{
    is_second(t, i) && slice_element(s, &seen(t, 0)).is_some()
}

/// Whether an index or a slice asks its kid number `i` for a type: each but the operand, for `size`.
fn bound_asks(s: &mut TypeStore, t: &Turn<'_>, i: usize) -> Result<bool, AllocError>
    ensures index { IfOk result (λ b. (f : Store) → IsLater s.new f → b ≡ asks_as (context_in f t.now) i ki.Index) }
    ensures slice { IfOk result (λ b. (f : Store) → IsLater s.new f → b ≡ asks_as (context_in f t.now) i ki.Slice) }
    ensures grown { IsGrown s.old s.new }
{
    let made = word(s, Scalar::Size)?;
    let _size = made;
    let before = kids_before(t.kids, i);
    Ok(before != 0)
}

/// The text of a kid; nothing of one that is not there.
fn text_at<'a>(kids: &'a TypedKids, i: usize) -> &'a [u8]
    ensures { result.now ≡ context.text_of (tree_from_front i kids.now) }
{
    match kids.get(i) {
        Some(kid) => kid.text.bytes(),
        None => &[],
    }
}

/// Whether a struct literal asks its kid number `i` for a type: a value, where its name is that of a field.
fn literal_asks(s: &TypeStore, t: &Turn<'_>, i: usize) -> bool
    requires { IsTurn s.now t.now }
    ensures { (f : Store) → IsLater s.now f → result ≡ asks_as (context_in f t.now) i ki.StructLit }
{
    if kids_before(t.kids, i) == 0 {
        return false;
    }
    field_of(s, &own(t, 0), text_at(t.kids, i)).is_some()
}

/// Whether an allocation asks its kid number `i` for a type: the operand, where the hint asks for such a value, and the capacity for
/// `size`.
fn allocation_asks(s: &mut TypeStore, t: &Turn<'_>, i: usize) -> Result<bool, AllocError>
    requires { IsTurn s.old t.now }
    ensures value { IfOk result (λ b. (f : Store) → IsLater s.new f → b ≡ asks_as (context_in f t.now) i ki.Alloc) }
    ensures grown { IsGrown s.old s.new }
{
    let _law = s.declarations();
    let case = t.case;
    if kids_before(t.kids, i) != 0 {
        let counted = word(s, Scalar::Size)?;
        let _size = counted;
        return Ok(true);
    }
    if has_capacity(t) {
        return Ok(asked(s, &case.hint).is_some());
    }
    Ok(object_asked(s, &case.hint).is_some())
}

/// Whether the node has asked its kid number `i` for a value of a type.
///
/// The node is one of those that `judge` judges. It is shaped and has its kids, which have been judged; each type that stands in them or is
/// told with it is in the store, and mentions no name that is not defined. The store may grow in types. Fails for want of memory alone.
pub fn asks_type(s: &mut TypeStore, t: &Turn<'_>, i: usize) -> Result<bool, AllocError>
    requires kind { judges (kind_in t.now) ≡ true }
    requires turn { IsTurn s.old t.now }
    ensures value { IfOk result (λ b. (f : Store) → IsLater s.new f → b ≡ asks_type (context_in f t.now) i) }
    ensures grown { IsGrown s.old s.new }
{
    let _law = s.declarations();
    let node = t.node;
    match node.kind {
        Kind::Assign => Ok(assignment_asks(t, i)),
        Kind::Append => Ok(append_asks(s, t, i)),
        Kind::StructLit => Ok(literal_asks(s, t, i)),
        Kind::Tuple => Ok(tuples::item_asks(s, t, i)),
        Kind::Array => {
            let b = arrays::item_asks(s, t, i)?;
            Ok(b)
        }
        Kind::Alloc => {
            let b = allocation_asks(s, t, i)?;
            Ok(b)
        }
        Kind::Index => {
            let b = bound_asks(s, t, i)?;
            Ok(b)
        }
        Kind::Slice => {
            let b = bound_asks(s, t, i)?;
            Ok(b)
        }
        Kind::Path
        | Kind::Deref
        | Kind::Addr
        | Kind::Field
        | Kind::Free
        | Kind::Delete
        | Kind::Len
        | Kind::Offset => Ok(false),
        _ => unreachable!(),
    }
}

/// The type to which the operand of an allocation goes: its default, where no hint says what the object is.
fn object_target(s: &mut TypeStore, t: &Turn<'_>, i: usize) -> Result<Option<TypeId>, AllocError>
    requires { IsTurn s.old t.now }
    ensures value { IfOk result (λ o. (f : Store) → IsLater s.new f → o ≡ target_of (context_in f t.now) ki.Alloc i) }
    ensures defined { IfOk result (λ o. IfSome o (λ u. IsDefined s.new u)) }
    ensures grown { IsGrown s.old s.new }
{
    let _law = s.declarations();
    let case = t.case;
    if i != 0 {
        return Ok(None);
    }
    if has_capacity(t) {
        return Ok(None);
    }
    if object_asked(s, &case.hint).is_some() {
        return Ok(None);
    }
    let operand = own(t, i);
    let d = default_in(s, &operand)?;
    Ok(d)
}

/// The type to which kid number `i` goes that was asked for none; none where it stays as it is.
pub(crate) fn target(
    s: &mut TypeStore,
    t: &Turn<'_>,
    i: usize,
) -> Result<Option<TypeId>, AllocError>
    requires kind { judges (kind_in t.now) ≡ true }
    requires turn { IsTurn s.old t.now }
    ensures value { IfOk result (λ o. (f : Store) → IsLater s.new f → o ≡ target_of (context_in f t.now) (kind_in t.now) i) }
    ensures defined { IfOk result (λ o. IfSome o (λ u. IsDefined s.new u)) }
    ensures grown { IsGrown s.old s.new }
{
    let _law = s.declarations();
    let node = t.node;
    match node.kind {
        Kind::Alloc => {
            let o = object_target(s, t, i)?;
            Ok(o)
        }
        Kind::Tuple => {
            let o = tuples::item_target(s, t, i)?;
            Ok(o)
        }
        Kind::Array => {
            let o = arrays::item_target(s, t, i)?;
            Ok(o)
        }
        Kind::Path
        | Kind::Deref
        | Kind::Addr
        | Kind::Assign
        | Kind::Index
        | Kind::Slice
        | Kind::Field
        | Kind::StructLit
        | Kind::Free
        | Kind::Append
        | Kind::Delete
        | Kind::Len
        | Kind::Offset => Ok(None),
        _ => unreachable!(),
    }
}
