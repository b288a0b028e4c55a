//! The row of the table of assignability that admits a value to a union, by the union's members.

ghost use Rattle.std.specs.Prelude.{◌≡◌, ◌<◌, length};
ghost use Rattle.hare_types.specs.Rows.{AllBelow};
ghost use Rattle.hare_types.specs.Trees.{Scalar as ScalarTree, Union};
ghost use Rattle.hare_types.specs.Assign.{type_at, value_at, IsIn, same, some_tree, how_many, is_const, is_lone, is_member, is_part, is_default, is_union, joins};
ghost use Rattle.hare_layout.specs.Members.{IsUnion};
ghost use Rattle.hare_assign.specs.Shapes.{types_at, members_of};

use crate::base::base;
use crate::rows::{is_const, is_null, is_pointer, is_same, is_slice};
use crate::types::row_of;
use hare_layout::subset;
use hare_types::{Row, Scalar, Ty, TypeId, TypeStore};

/// The value's type is one of these.
fn is_member(s: &TypeStore, members: &[TypeId], from: &Ty) -> bool
    requires members { AllBelow (length s.now.rows) members.now }
    requires from { IsIn s.now from.now }
    ensures { result ≡ is_member (value_at s.now from.now) (types_at s.now members.now) }
{
    for m in members {
        if is_same(s, *m, from) {
            return true;
        }
    }
    false
}

/// The value's base is a union whose members all are members of this union.
fn is_part(s: &TypeStore, union: TypeId, from: &Ty) -> bool
    requires union { IsUnion s.now union }
    requires from { IsIn s.now from.now }
    ensures { result ≡ is_part s.now (value_at s.now from.now) (members_of (type_at s.now union)) }
{
    match from {
        Ty::Of(f) => match base(s, *f) {
            Some(b) => match row_of(s, b) {
                Row::Union(_) => subset(s, b, union),
                _ => false,
            },
            None => false,
        },
        Ty::Iconst(_) | Ty::Null | Ty::Empty => false,
    }
}

/// The type is this word.
pub(crate) fn is_word(s: &TypeStore, t: TypeId, k: Scalar) -> bool
    requires { t < length s.now.rows }
    ensures { result ≡ same (ScalarTree k) (type_at s.now t) }
{
    match row_of(s, t) {
        Row::Scalar(j) => k == *j,
        _ => false,
    }
}

/// One of the types is this word.
fn has_word(s: &TypeStore, members: &[TypeId], k: Scalar) -> bool
    requires { AllBelow (length s.now.rows) members.now }
    ensures { result ≡ some_tree (same (ScalarTree k)) (types_at s.now members.now) }
{
    for m in members {
        if is_word(s, *m, k) {
            return true;
        }
    }
    false
}

/// The value is a whole number without a suffix, and its default type is one of these.
fn is_default(s: &TypeStore, members: &[TypeId], from: &Ty) -> bool
    requires { AllBelow (length s.now.rows) members.now }
    ensures { result ≡ is_default (value_at s.now from.now) (types_at s.now members.now) }
{
    match from {
        Ty::Iconst(v) => match Scalar::default_of(*v) {
            Some(k) => has_word(s, members, k),
            None => false,
        },
        Ty::Of(_) | Ty::Null | Ty::Empty => false,
    }
}

/// To how many of the types the value is admitted as a whole number without a suffix.
pub(crate) fn count_const(s: &TypeStore, members: &[TypeId], from: &Ty) -> usize
    requires { AllBelow (length s.now.rows) members.now }
    ensures { result ≡ how_many (is_const s.now (value_at s.now from.now)) (types_at s.now members.now) }
{
    let mut found = 0;
    for m in members {
        if is_const(s, *m, from) {
            found += 1;
        }
    }
    found
}

/// Whether the value is admitted as a pointer, as null or as a slice.
pub(crate) fn is_lone(s: &TypeStore, to: TypeId, from: &Ty) -> bool
    requires to { to < length s.now.rows }
    requires from { IsIn s.now from.now }
    ensures { result ≡ is_lone s.now (value_at s.now from.now) (type_at s.now to) }
{
    is_pointer(s, to, from) || is_null(s, to, from) || is_slice(s, to, from)
}

/// To how many of the types the value is admitted as a pointer, as null or as a slice.
pub(crate) fn count_lone(s: &TypeStore, members: &[TypeId], from: &Ty) -> usize
    requires members { AllBelow (length s.now.rows) members.now }
    requires from { IsIn s.now from.now }
    ensures { result ≡ how_many (is_lone s.now (value_at s.now from.now)) (types_at s.now members.now) }
{
    let mut found = 0;
    for m in members {
        if is_lone(s, *m, from) {
            found += 1;
        }
    }
    found
}

/// Whether the value finds its place among the members of the union.
fn joins(s: &TypeStore, union: TypeId, members: &[TypeId], from: &Ty) -> bool
    requires union { IsUnion s.now union }
    requires tree { type_at s.now union ≡ Union (types_at s.now members.now) }
    requires members { AllBelow (length s.now.rows) members.now }
    requires from { IsIn s.now from.now }
    ensures { result ≡ joins s.now (value_at s.now from.now) (type_at s.now union) }
{
    is_member(s, members, from)
        || is_part(s, union, from)
        || is_default(s, members, from)
        || count_const(s, members, from) == 1
        || count_lone(s, members, from) == 1
}

/// The base of the type is a union, and: the value's type is a member; or its base is a union whose members all are members; or it is a
/// whole number without a suffix, and its default type is a member, or else exactly one member has an integer type as its base that holds
/// it; or exactly one member is admitted as a pointer, for `null` or as a slice.
pub(crate) fn is_union(s: &TypeStore, to: TypeId, from: &Ty) -> bool
    requires to { to < length s.now.rows }
    requires from { IsIn s.now from.now }
    ensures { result ≡ is_union s.now (value_at s.now from.now) (type_at s.now to) }
{
    match base(s, to) {
        Some(b) => match row_of(s, b) {
            Row::Union(members) => joins(s, b, members.as_slice(), from),
            _ => false,
        },
        None => false,
    }
}
