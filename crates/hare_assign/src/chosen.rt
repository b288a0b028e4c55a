//! Which member of a union a value becomes.

ghost use Rattle.std.specs.Prelude.{◌≡◌, ◌<◌, ℕ, length, Some, None, IfSome, IfNone};
ghost use Rattle.hare_types.specs.Rows.{AllBelow};
ghost use Rattle.hare_types.specs.Sound.{IsStore};
ghost use Rattle.hare_types.specs.ByIds.{members_at};
ghost use Rattle.hare_types.specs.Assign.{type_at, value_at, IsIn};
ghost use Rattle.hare_assign.specs.Chosen as spec;
ghost use Rattle.hare_assign.specs.Chosen.{is_its_default, first_of, member_for, chosen, IsChosen, KeepsMember};
ghost use Rattle.hare_assign.specs.Ways.{passes};

use crate::assign::assignable;
use crate::rows::{is_const, is_same};
use crate::types::row_of;
use crate::unions::{count_const, count_lone, is_lone, is_word};
use hare_types::{Coercion, Row, Scalar, Ty, TypeId, TypeStore};

/// How a value finds its member of a union.
#[derive(Clone, Copy)]
pub(crate) enum Way {
    /// It is of the member's type.
    Own,
    /// It is a whole number without a suffix, and the member is its default type.
    Default,
    /// It is such a number, and the member's base an integer type that holds it.
    Number,
    /// It goes to the member as a pointer, as null or as a slice.
    Lone,
}

/// The value is a whole number without a suffix whose default type this is.
fn is_its_default(s: &TypeStore, to: TypeId, from: &Ty) -> bool
    requires { to < length s.now.rows }
    ensures { result ≡ is_its_default (value_at s.now from.now) (type_at s.now to) }
{
    match from {
        Ty::Iconst(v) => match Scalar::default_of(*v) {
            Some(k) => is_word(s, to, k),
            None => false,
        },
        Ty::Of(_) | Ty::Null | Ty::Empty => false,
    }
}

/// Whether the value goes to the type in this way.
fn passes(s: &TypeStore, way: Way, to: TypeId, from: &Ty) -> bool
    requires to { to < length s.now.rows }
    requires from { IsIn s.now from.now }
    ensures { result ≡ passes s.now way (value_at s.now from.now) (type_at s.now to) }
{
    match way {
        Way::Own => is_same(s, to, from),
        Way::Default => is_its_default(s, to, from),
        Way::Number => is_const(s, to, from),
        Way::Lone => is_lone(s, to, from),
    }
}

/// The first of the types to which the value goes in this way.
fn first_of(s: &TypeStore, way: Way, members: &[TypeId], from: &Ty) -> Option<TypeId>
    requires members { AllBelow (length s.now.rows) members.now }
    requires from { IsIn s.now from.now }
    ensures { result ≡ first_of s.now (passes s.now way (value_at s.now from.now)) members.now }
{
    for m in members {
        if passes(s, way, *m, from) {
            return Some(*m);
        }
    }
    None
}

/// The member that the value becomes, `None` where it becomes none, or keeps its own.
fn member_for(s: &TypeStore, members: &[TypeId], from: &Ty) -> Option<TypeId>
    requires members { AllBelow (length s.now.rows) members.now }
    requires from { IsIn s.now from.now }
    ensures { result ≡ member_for s.now (value_at s.now from.now) members.now }
{
    if let Some(m) = first_of(s, Way::Own, members, from) {
        return Some(m);
    }
    if let Some(m) = first_of(s, Way::Default, members, from) {
        return Some(m);
    }
    if count_const(s, members, from) == 1 {
        return first_of(s, Way::Number, members, from);
    }
    if count_lone(s, members, from) == 1 {
        return first_of(s, Way::Lone, members, from);
    }
    None
}

/// The members of the union that a type comes to, once names and error marks are followed.
fn members_of_base(s: &TypeStore, t: TypeId) -> Option<&[TypeId]>
    requires { t < length s.now.rows }
    ensures some { IfSome result (λ js. members_at s.now t ≡ Some js.now) }
    ensures none { IfNone result (members_at s.now t ≡ None) }
    ensures within { IfSome result (λ js. AllBelow (length s.now.rows) js.now) }
    ensures sound { IsStore s.now }
{
    match s.base(t) {
        Some(b) => match row_of(s, b) {
            Row::Union(members) => Some(members.as_slice()),
            _ => None,
        },
        None => None,
    }
}

/// Which member a value becomes that is assigned to a union, and by which row of the table of assignability it goes to that member. Names
/// and error marks of the type are followed to the union.
///
/// The member is the value's own type; or the default type of a whole number without a suffix; or else the only member with an integer type
/// as its base that holds the number; or the only one to which the value goes as a pointer, as `null` or as a slice. `None` where the
/// union does not admit the value, or the value is of a union itself whose members all are members: it keeps the member that it has.
///
/// The types are in the store. The time grows with the members.
pub fn chosen_member(s: &TypeStore, to: TypeId, from: Ty) -> Option<Coercion>
    requires to { to < length s.now.rows }
    requires from { IsIn s.now from }
    ensures value { result ≡ chosen s.now from to }
    ensures some { IfSome result (λ c. IsChosen s.now from to c) }
    ensures none { IfNone result (KeepsMember s.now from to) }
{
    match members_of_base(s, to) {
        Some(members) => match member_for(s, members, &from) {
            Some(m) => assignable(s, m, from),
            None => None,
        },
        None => None,
    }
}

/// The first of the types to which the value goes in the first way in which it goes to one.
fn first_member(s: &TypeStore, members: &[TypeId], from: &Ty) -> Option<TypeId>
    requires members { AllBelow (length s.now.rows) members.now }
    requires from { IsIn s.now from.now }
    ensures { result ≡ spec.first_member s.now (value_at s.now from.now) members.now }
{
    if let Some(m) = first_of(s, Way::Own, members, from) {
        return Some(m);
    }
    if let Some(m) = first_of(s, Way::Default, members, from) {
        return Some(m);
    }
    if let Some(m) = first_of(s, Way::Number, members, from) {
        return Some(m);
    }
    first_of(s, Way::Lone, members, from)
}

/// The first member of a union to which a value goes: as its own type; or as the default type of a whole number without a suffix; or as an
/// integer type that holds the number; or as a pointer, as `null` or as a slice. Names and error marks of the type are followed to the
/// union. Where the union admits the value, this is the member that it becomes, which `chosen_member` tells: members are not counted here.
///
/// `None` where no member admits the value so: where the union admits it all the same, it is of a union itself, and keeps the member that
/// it has. `None`
/// also of a type that comes to no union. The types are in the store. The time grows with the members.
pub fn first_choice(s: &TypeStore, to: TypeId, from: Ty) -> Option<TypeId>
    requires to { to < length s.now.rows }
    requires from { IsIn s.now from }
    ensures value { result ≡ spec.first_choice s.now from to }
    ensures within { IfSome result (λ m. m < length s.now.rows) }
{
    match members_of_base(s, to) {
        Some(members) => first_member(s, members, &from),
        None => None,
    }
}
