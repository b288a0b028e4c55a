//! Sizes, alignments and lengths.

ghost use Rattle.std.specs.Prelude.{◌≡◌, [], ◌∷◌, IfOk};
ghost use Rattle.hare_typed.specs.Followed as follow;
ghost use Rattle.hare_typed.specs.Given.{size_in as size_of_type, base_row as row_of_base, pointee};
ghost use Rattle.hare_typed.specs.Shapes.{align_in as align_of_type};
ghost use Rattle.hare_typed.specs.Coercions as coercions;
ghost use Rattle.hare_typed.specs.ConstantForms.{type_of_kid as kid_type, is_array_row};
ghost use Rattle.hare_types.specs.declared.coercion.Ty.TheVariants as ty;
ghost use Rattle.hare_types.specs.Assign.{IsIn};
ghost use Rattle.hare_const.specs.declared.outcome.Outcome.TheVariants.{Known};
ghost use Rattle.hare_const.specs.NodeValues as spec;
ghost use Rattle.hare_typed.specs.Settled as asked;

use crate::kids::type_of_kid;
use crate::number::number_cells;
use crate::parts::{part_named, part_number};
use crate::shape::base_row;
use crate::sizes::{align_of, offset_of, size_of};
use crate::words::length_of_text;
use hare_typed::{Cells, Typed};
use hare_types::{Row, Ty, TypeId, TypeStore};
use std::alloc::{AllocError, Global};

/// Through how many pointers a field is taken at most.
const MOST_POINTERS: u64 = 16;

/// The size of a type in bytes; none of what has no type yet.
fn size_in(s: &TypeStore, t: Ty) -> u64
    requires { asked.IsSized s.now t }
    ensures { result ≡ size_of_type s.now t }
{
    match t {
        Ty::Of(t) => size_of(s, t),
        Ty::Iconst(_) | Ty::Null | Ty::Empty => 0,
    }
}

/// Of what the address of a value of the type is a multiple.
fn align_in(s: &TypeStore, t: Ty) -> u64
    requires { asked.IsSized s.now t }
    ensures { result ≡ align_of_type s.now t }
{
    match t {
        Ty::Of(t) => align_of(s, t),
        Ty::Iconst(_) | Ty::Null | Ty::Empty => 1,
    }
}

/// The value of `size(..)`.
pub(crate) fn size_value(alloc: Global, s: &TypeStore, t: &Typed) -> Result<Cells, AllocError>
    requires { asked.IsSized s.now (kid_type 0 t.now) }
    ensures { IfOk result (λ cells. cells ≡ spec.size_value s.now t.now) }
{
    number_cells(alloc, s, t.ty, i128::from(size_in(s, type_of_kid(t, 0))))
}

/// The value of `align(..)`.
pub(crate) fn align_value(alloc: Global, s: &TypeStore, t: &Typed) -> Result<Cells, AllocError>
    requires { asked.IsSized s.now (kid_type 0 t.now) }
    ensures { IfOk result (λ cells. cells ≡ spec.align_value s.now t.now) }
{
    number_cells(alloc, s, t.ty, i128::from(align_in(s, type_of_kid(t, 0))))
}

/// What is reached from a value of a type where its pointer is followed, if it is one.
fn followed(s: &TypeStore, t: Ty) -> Ty
    ensures { result ≡ follow.pointee_or t (pointee s.now t) }
{
    let Ty::Of(of) = t else {
        return t;
    };
    match base_row(s, of) {
        Some(Row::Pointer(to)) => Ty::Of(*to),
        _ => t,
    }
}

/// What is reached from a value of a type through so many pointers at most.
fn reached_within(s: &TypeStore, t: Ty, most: u64) -> Ty
    ensures { result ≡ follow.reached_within most s.now t }
{
    let mut at = t;
    for passed in 0..most {
        at = followed(s, at);
    }
    at
}

/// The type in which the field stands that an `offset(..)` names.
pub(crate) fn type_with_offset(s: &TypeStore, t: &Typed) -> Ty
    ensures { result ≡ asked.type_with_offset s.now t.now }
{
    match t.kids.get(0) {
        Some(field) => reached_within(s, type_of_kid(field, 0), MOST_POINTERS),
        None => Ty::Empty,
    }
}

/// Which part of that type the field is.
pub(crate) fn part_with_offset(s: &TypeStore, whole: TypeId, t: &Typed) -> u128
    requires { asked.type_with_offset s.now t.now ≡ ty.Of whole }
    ensures { result ≡ asked.part_with_offset s.now t.now }
{
    match t.kids.get(0) {
        Some(field) => part_named(s, whole, field),
        None => unreachable!(),
    }
}

/// The value of `offset(..)`: of the node within it only the type and the name count.
pub(crate) fn offset_value(alloc: Global, s: &TypeStore, t: &Typed) -> Result<Cells, AllocError>
    requires { asked.HasParts s.now (asked.type_with_offset s.now t.now) (asked.part_with_offset s.now t.now ∷ []) }
    ensures { IfOk result (λ cells. cells ≡ spec.offset_value s.now t.now) }
{
    let Ty::Of(whole) = type_with_offset(s, t) else {
        unreachable!()
    };
    let part = part_number(part_with_offset(s, whole, t))?;
    number_cells(alloc, s, t.ty, i128::from(offset_of(s, whole, part)))
}

/// The length of the array that is the base of a type; 0 where it is none.
pub(crate) fn length_of_base(s: &TypeStore, t: Ty) -> u64
    ensures { result ≡ coercions.length_of_row (row_of_base s.now t) }
{
    let Ty::Of(t) = t else {
        return 0;
    };
    match base_row(s, t) {
        Some(Row::Array(n, _)) => *n,
        _ => 0,
    }
}

/// The length of an array type itself, names and error marks not followed; 0 where it is none.
pub(crate) fn length_of_value(s: &TypeStore, t: Ty) -> u64
    requires { IsIn s.now t }
    ensures { result ≡ coercions.length_of_value s.now t }
{
    let Ty::Of(t) = t else {
        return 0;
    };
    match s.row(t) {
        Row::Array(n, _) => *n,
        _ => 0,
    }
}

/// The value of `len(..)` of an array, whose length its type has.
fn array_length_value(alloc: Global, s: &TypeStore, t: &Typed) -> Result<Cells, AllocError>
    ensures { IfOk result (λ cells. cells ≡ spec.array_length_value s.now t.now) }
{
    number_cells(
        alloc,
        s,
        t.ty,
        i128::from(length_of_base(s, type_of_kid(t, 0))),
    )
}

/// Whether the base of a type is an array.
fn is_array(s: &TypeStore, t: Ty) -> bool
    ensures { result ≡ is_array_row (row_of_base s.now t) }
{
    let Ty::Of(t) = t else {
        return false;
    };
    matches!(base_row(s, t), Some(Row::Array(_, _)))
}

/// The value of `len(..)`: the length of an array is in its type, and that of a text among its cells. Cells that are no text are want of
/// memory; no tree that was checked comes to them.
pub(crate) fn length_value(
    alloc: Global,
    s: &TypeStore,
    t: &Typed,
    cells: &Cells,
) -> Result<Cells, AllocError>
    ensures { IfOk result (λ cs. Known cs ≡ spec.length_value s.now t.now cells.now) }
{
    if is_array(s, type_of_kid(t, 0)) {
        return array_length_value(alloc, s, t);
    }
    match length_of_text(cells) {
        Some(length) => number_cells(alloc, s, t.ty, i128::from(length)),
        None => Err(AllocError),
    }
}
