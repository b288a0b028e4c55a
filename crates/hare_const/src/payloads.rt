//! Values of unions that go to wider unions.

ghost use Rattle.std.specs.Prelude.{◌≡◌, ◌<◌, true, find, length, pos, Some, IfOk, IfSome, IsSome};
ghost use Rattle.hare_types.specs.ByIds.{base_at, members_at};
ghost use Rattle.hare_types.specs.Rows.{AllBelow};
ghost use Rattle.hare_typed.specs.Answers.{Gives};
ghost use Rattle.hare_typed.specs.Cells.{cells_within as part_of};
ghost use Rattle.hare_typed.specs.Scalars as scalars;
ghost use Rattle.hare_typed.specs.Folded.{tagged_by_id};
ghost use Rattle.hare_typed.specs.Unions as unions;
ghost use Rattle.hare_typed.specs.Coercions.{union_to_union};
ghost use Rattle.hare_typed.specs.Joined.{IsToldUnion, HasToldUnion};
ghost use Rattle.hare_typed.specs.Sizes.{Fits};

use crate::number::{little_endian, number_at};
use crate::shape::{Shape, base_row, shape_at};
use crate::sizes::size_of;
use crate::unions::{payload_of, union_cells};
use crate::words::{is_nullable, is_reference};
use hare_typed::{Cell, Cells};
use hare_types::{Row, Ty, TypeId, TypeStore};
use std::alloc::{AllocError, Global};

/// How many cells a tag has.
const TAG_CELLS: usize = 4;

/// The tag of a union's value; none where its first cells are no bytes.
fn tag_in(cells: &Cells) -> Option<u64>
    ensures { IfSome result (λ n. scalars.spelled unions.tag_shape (part_of 0 4 cells.now) ≡ Some (scalars.Number (pos n))) }
{
    let mut first = [Cell::Undef; TAG_CELLS];
    if !cells.read(0, &mut first) {
        return None;
    }
    little_endian(&first)
}

/// The member of a union with this tag: one that has the tag less one as its id.
fn member_tagged(s: &TypeStore, members: &[TypeId], tag: u64) -> Option<TypeId>
    requires { AllBelow (length s.now.rows) members.now }
    ensures { result ≡ find (unions.has_tag (tagged_by_id s.now) tag) members.now }
{
    let _law = s.declarations();
    for m in members {
        if u64::from(m.index()) + 1 == tag {
            return Some(*m);
        }
    }
    None
}

/// Whether cells are a value of a type: where this is scalar, they spell one.
fn is_value(s: &TypeStore, t: TypeId, cells: &Cells) -> bool
    ensures { result ≡ true → Gives cells.now ≡ unions.checked s.now t cells.now }
{
    match shape_at(s, t) {
        Some(Shape::Whole(_, _) | Shape::Truth) => number_at(s, t, cells).is_some(),
        Some(Shape::Reference) => is_reference(cells),
        Some(Shape::Nullable) => is_nullable(cells),
        None => true,
    }
}

/// The members of the union to which a type comes.
fn members_of(s: &TypeStore, t: TypeId) -> Option<&[TypeId]>
    ensures { IfSome result (λ is. members_at s.now t ≡ Some is.now) }
{
    match base_row(s, t) {
        Some(Row::Union(members)) => Some(members.as_slice()),
        _ => None,
    }
}

/// The member of a union that a value of it is; none where its tag is that of no member.
fn member_in(s: &TypeStore, of_union: TypeId, cells: &Cells) -> Option<TypeId>
    requires { IsToldUnion s.now of_union }
    ensures value { IfSome result (λ m. Gives m ≡ unions.member_by_tag (tagged_by_id s.now) of_union cells.now) }
    ensures told { IfSome result (λ m. IsSome (base_at s.now m) × Fits s.now m) }
{
    let _law = s.declarations();
    let tag = tag_in(cells)?;
    match members_of(s, of_union) {
        Some(members) => member_tagged(s, members, tag),
        None => None,
    }
}

/// The payload of a union's value, as a value of its member.
fn payload_cells(
    alloc: Global,
    s: &TypeStore,
    of_union: TypeId,
    member: TypeId,
    cells: &Cells,
) -> Result<Cells, AllocError>
    requires union { IsToldUnion s.now of_union }
    requires member { IsSome (base_at s.now member) × Fits s.now member }
    ensures { IfOk result (λ part. Gives part ≡ unions.payload (tagged_by_id s.now) of_union member cells.now) }
{
    let _law = s.declarations();
    let (at, count) = (payload_of(s, of_union), size_of(s, member));
    let part = cells.part(alloc, at as usize, count as usize)?;
    if !is_value(s, member, &part) {
        return Err(AllocError);
    }
    Ok(part)
}

/// A value of a union as one of a wider union: it keeps its member. Where its cells are none of such a value, the answer is want of memory.
pub(crate) fn wider_cells(
    alloc: Global,
    s: &TypeStore,
    from: Ty,
    to: TypeId,
    cells: &Cells,
) -> Result<Cells, AllocError>
    requires from { HasToldUnion s.now from }
    requires to { IsToldUnion s.now to }
    ensures { IfOk result (λ whole. Gives whole ≡ union_to_union (tagged_by_id s.now) from to cells.now) }
{
    let Ty::Of(of_union) = from else {
        return Err(AllocError);
    };
    let Some(member) = member_in(s, of_union, cells) else {
        return Err(AllocError);
    };
    let part = payload_cells(alloc, s, of_union, member, cells)?;
    union_cells(alloc, s, to, member, &part)
}
