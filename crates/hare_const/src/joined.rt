//! Whether all is known of a union of which the values are made that go to it.

ghost use Rattle.std.specs.Prelude.{IsTrue, ◌↔◌};
ghost use Rattle.hare_types.specs.declared.coercion.Ty.TheVariants as ty;
ghost use Rattle.hare_typed.specs.Typed.{mark_of};
ghost use Rattle.hare_typed.specs.ConstantForms.{own_type};
ghost use Rattle.hare_typed.specs.Joined as spec;
ghost use Rattle.hare_typed.specs.Settled.{HasBase};

use crate::shape::base_row;
use crate::sizes::fits;
use hare_assign::first_choice;
use hare_typed::Typed;
use hare_types::{Row, Ty, TypeId, TypeStore};

/// The number of the row of the table of assignability by which a value goes to a union.
pub(crate) const TO_UNION: u8 = 9;

/// Whether of each of these types the base and the size can be told.
fn are_told(s: &TypeStore, types: &[TypeId]) -> bool
    ensures { IsTrue result ↔ spec.AreTold s.now types.now }
{
    for t in types {
        if s.base(*t).is_none() || !fits(s, *t) {
            return false;
        }
    }
    true
}

/// Whether a type comes to a union whose size can be told, and of whose members the bases and the sizes can.
fn is_told_union(s: &TypeStore, t: TypeId) -> bool
    ensures { IsTrue result ↔ spec.IsToldUnion s.now t }
{
    match base_row(s, t) {
        Some(Row::Union(members)) => fits(s, t) && are_told(s, members.as_slice()),
        _ => false,
    }
}

/// Whether a value is of such a union itself.
fn has_told_union(s: &TypeStore, t: Ty) -> bool
    ensures { IsTrue result ↔ spec.HasToldUnion s.now t }
{
    match t {
        Ty::Of(t) => is_told_union(s, t),
        Ty::Iconst(_) | Ty::Null | Ty::Empty => false,
    }
}

/// Whether a value becomes a member of such a union, or keeps the member that it has of one.
fn is_joined(s: &TypeStore, t: &Typed, to: TypeId) -> bool
    requires from { HasBase s.now (own_type t.now) }
    requires to { HasBase s.now (ty.Of to) }
    ensures { IsTrue result ↔ spec.IsJoined s.now (own_type t.now) to }
{
    is_told_union(s, to) && (first_choice(s, to, t.ty).is_some() || has_told_union(s, t.ty))
}

/// Whether the value of a node does so, where its coercion is to a union.
pub(crate) fn joins(s: &TypeStore, t: &Typed) -> bool
    requires from { HasBase s.now (own_type t.now) }
    requires to { HasBase s.now (mark_of t.now).coerce.to }
    ensures { IsTrue result ↔ spec.Joins s.now (own_type t.now) (mark_of t.now).coerce.row (mark_of t.now).coerce.to }
{
    let Ty::Of(to) = t.coerce.to else {
        return true;
    };
    t.coerce.row != TO_UNION || is_joined(s, t, to)
}
