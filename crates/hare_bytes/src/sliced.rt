//! Which coercions make an array a slice.

ghost use Rattle.std.specs.Prelude.{◌≡◌, ◌<◌, length, is_some, IfOk, ◌&&◌, nat_eq};
ghost use Rattle.hare_types.specs.declared.coercion.Ty.TheVariants.{Of};
ghost use Rattle.hare_types.specs.Assign.{IsIn};
ghost use Rattle.hare_typed.specs.Coercions as coercions;
ghost use Rattle.hare_typed.specs.Evaluated as evaluated;
ghost use Rattle.hare_typed.specs.Given as given;
ghost use Rattle.hare_bytes.specs.Sliced as spec;

use crate::sizes::{base_row, row_of};
use hare_assign::chosen_member;
use hare_typed::Typed;
use hare_types::{Coercion, Row, Ty, TypeId, TypeStore};
use std::alloc::AllocError;

/// The row of the table of assignability by which an array goes to a slice.
const TO_SLICE: u8 = 7;

/// The row by which a value goes to a union.
const TO_UNION: u8 = 9;

/// Whether a node's coercion makes a slice of an array, alone or as a member of a union.
pub fn makes_slice(s: &TypeStore, t: &Typed) -> Result<bool, AllocError>
    ensures { IfOk result (λ b. b ≡ evaluated.makes_slice s.now t.now) }
{
    match t.coerce.to {
        Ty::Of(to) if t.coerce.row == TO_UNION => joins_as_slice(s, t.ty, to),
        to => Ok(goes_as_slice(s, t.coerce.row, to)),
    }
}

/// Whether a value goes by this row of the table to a slice.
fn goes_as_slice(s: &TypeStore, row: u8, to: Ty) -> bool
    ensures { result ≡ is_some (coercions.element_by s.now row to) }
{
    match to {
        Ty::Of(t) => row == TO_SLICE && is_slice(s, t),
        Ty::Iconst(_) | Ty::Null | Ty::Empty => false,
    }
}

/// Whether the base of a type is a slice.
fn is_slice(s: &TypeStore, t: TypeId) -> bool
    ensures { result ≡ is_some (coercions.element_of_slice (given.base_row s.now (Of t))) }
{
    matches!(base_row(s, t), Some(Row::Slice(_)))
}

/// Whether a value of this type is joined to a union as an array that becomes a slice.
fn joins_as_slice(s: &TypeStore, from: Ty, to: TypeId) -> Result<bool, AllocError>
    ensures { IfOk result (λ b. b ≡ spec.joins_as_slice s.now from to) }
{
    if !is_array(s, from)? {
        return Ok(false);
    }
    let inner = inner_to(s, from, to)?;
    Ok(goes_as_slice(s, inner.row, inner.to))
}

/// Whether a value of this type is an array.
fn is_array(s: &TypeStore, from: Ty) -> Result<bool, AllocError>
    ensures { IfOk result (λ b. spec.TellsArray s.now from b) }
{
    match from {
        Ty::Of(t) => Ok(is_array_row(row_of(s, t)?)),
        Ty::Empty => Ok(true),
        Ty::Iconst(_) | Ty::Null => Ok(false),
    }
}

/// Whether a row is that of an array.
fn is_array_row(row: &Row) -> bool
    ensures { result ≡ spec.is_array_row row.now }
{
    matches!(row, Row::Array(_, _))
}

/// How an array goes to the member of a union that it becomes.
fn inner_to(s: &TypeStore, from: Ty, to: TypeId) -> Result<Coercion, AllocError>
    requires from { IsIn s.now from }
    requires array { spec.IsArray s.now from }
    ensures { IfOk result (λ c. c ≡ coercions.inner_to s.now from to) }
{
    if s.base(to).is_none() {
        return Err(AllocError);
    }
    match chosen_member(s, to, from) {
        Some(inner) => Ok(inner),
        None => Err(AllocError),
    }
}
