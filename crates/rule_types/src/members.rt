//! What stands in a written union.

ghost use Rattle.std.specs.Prelude.{◌≡◌, ◌<◌, ◌++◌, Some, true, length, cond, option_copied, option_map, IfOk, OnOk};
ghost use Rattle.hare_types.specs.ByIds.{members_at};
ghost use Rattle.hare_types.specs.Store.{Store};
ghost use Rattle.hare_types.specs.Later.{IsLater};
ghost use Rattle.hare_types.specs.Unions.{brought_at};
ghost use Rattle.hare_typed.specs.Order.{kid_from_front};
ghost use Rattle.hare_rules.specs.Context.{own_type, place_of};
ghost use Rattle.hare_rules.specs.Written as spec;
ghost use Rattle.rule_types.specs.Known.{IsBased};
ghost use Rattle.rule_types.specs.Members.{IsMemberKnown, AreMembersKnown, is_odd_spread};

use crate::reads::{has_size, is_never};
use hare_tree::{Kind, Place};
use hare_typed::{Typed, TypedKids};
use hare_types::{Row, Scalar, Ty, TypeId, TypeIds, TypeStore};
use rule_judge::type_at;
use std::alloc::{AllocError, Global};

/// Whether a member is spread.
fn is_spread(kid: &Typed) -> bool
    ensures { result ≡ spec.is_spread kid.now }
{
    matches!(kid.kind, Kind::Spread)
}

/// The type that a member writes, or that it spreads.
fn member_type(kid: &Typed) -> Ty
    ensures { result ≡ own_type (cond (spec.is_spread kid.now) (kid_from_front 0 kid.now) kid.now) }
{
    match kid.kind {
        Kind::Spread => type_at(&kid.kids, 0),
        _ => kid.ty,
    }
}

/// The members of the union that is the base of a type; none where that is no union.
fn members_of<'s>(s: &'s TypeStore, t: TypeId) -> Option<&'s TypeIds>
    requires { IsBased s.now t }
    ensures { (f : Store) → IsLater s.now f → option_copied result ≡ members_at f t }
{
    let b = s.base(t)?;
    match s.row(b) {
        Row::Union(members) => Some(members),
        _ => None,
    }
}

/// Whether a member that is spread is no union.
fn is_odd(s: &TypeStore, kid: &Typed) -> bool
    requires { IsMemberKnown s.now kid.now }
    ensures { (f : Store) → IsLater s.now f → result ≡ is_odd_spread f kid.now }
{
    if !is_spread(kid) {
        return false;
    }
    match member_type(kid) {
        Ty::Of(t) => members_of(s, t).is_none(),
        Ty::Iconst(_) | Ty::Null | Ty::Empty => unreachable!(),
    }
}

/// Where the first member stands that is spread and whose type is no union.
pub(crate) fn odd_spread(s: &TypeStore, kids: &TypedKids) -> Option<Place>
    requires { AreMembersKnown s.now kids.now }
    ensures { (f : Store) → IsLater s.now f → result ≡ option_map place_of (spec.odd_spread f kids.now) }
{
    for i in 0..kids.len() {
        let Some(kid) = kids.get(i) else {
            return None;
        };
        if is_odd(s, kid) {
            return Some(kid.place);
        }
    }
    None
}

/// Whether a member has a size, or is `never`; of one that is spread nothing is asked.
fn is_sized(s: &TypeStore, kid: &Typed) -> bool
    requires { IsMemberKnown s.now kid.now }
    ensures { (f : Store) → IsLater s.now f → result ≡ spec.is_member_sized f kid.now }
{
    if is_spread(kid) {
        return true;
    }
    match member_type(kid) {
        Ty::Of(t) => has_size(s, t) || is_never(s, t),
        Ty::Iconst(_) | Ty::Null | Ty::Empty => unreachable!(),
    }
}

/// Whether each member has a size, or is `never`, but for those that are spread.
pub(crate) fn are_sized(s: &TypeStore, kids: &TypedKids) -> bool
    requires { AreMembersKnown s.now kids.now }
    ensures { (f : Store) → IsLater s.now f → result ≡ spec.members_sized f kids.now }
{
    for i in 0..kids.len() {
        let Some(kid) = kids.get(i) else {
            return true;
        };
        if !is_sized(s, kid) {
            return false;
        }
    }
    true
}

/// Puts what a member that is spread brings at the end.
fn push_spread(ids: &mut Vec<TypeId>, s: &TypeStore, t: TypeId) -> Result<(), AllocError>
    requires { IsBased s.now t }
    ensures { OnOk result ((f : Store) → IsLater s.now f → ids.new.items ≡ ids.old.items ++ spec.brought_by_id f true (Some t)) }
{
    if let Some(members) = members_of(s, t) {
        ids.extend_from_slice(members.as_slice())?;
    }
    Ok(())
}

/// Puts what a member that is not spread brings at the end: an unnamed union its own members, `never` nothing, and any other type itself.
fn push_written(ids: &mut Vec<TypeId>, s: &TypeStore, t: TypeId) -> Result<(), AllocError>
    requires { t < length s.now.rows }
    ensures { OnOk result ((f : Store) → IsLater s.now f → ids.new.items ≡ ids.old.items ++ brought_at f t) }
{
    match s.row(t) {
        Row::Union(members) => ids.extend_from_slice(members.as_slice())?,
        Row::Scalar(k) => {
            if *k != Scalar::Never {
                ids.push(t)?;
            }
        }
        _ => ids.push(t)?,
    }
    Ok(())
}

/// Puts what a member brings to the union at the end.
fn push_brought(ids: &mut Vec<TypeId>, s: &TypeStore, kid: &Typed) -> Result<(), AllocError>
    requires { IsMemberKnown s.now kid.now }
    ensures { OnOk result ((f : Store) → IsLater s.now f → ids.new.items ≡ ids.old.items ++ spec.brought f kid.now) }
{
    let Ty::Of(t) = member_type(kid) else {
        unreachable!();
    };
    if is_spread(kid) {
        push_spread(ids, s, t)
    } else {
        push_written(ids, s, t)
    }
}

/// What the members bring to the union, a type as often as it is brought.
pub(crate) fn all_brought(
    alloc: Global,
    s: &TypeStore,
    kids: &TypedKids,
) -> Result<Vec<TypeId>, AllocError>
    requires { AreMembersKnown s.now kids.now }
    ensures { IfOk result (λ v. (f : Store) → IsLater s.now f → v.items ≡ spec.all_brought f kids.now) }
{
    let mut ids = Vec::new(alloc);
    for i in 0..kids.len() {
        let Some(kid) = kids.get(i) else {
            return Ok(ids);
        };
        push_brought(&mut ids, s, kid)?;
    }
    Ok(ids)
}
