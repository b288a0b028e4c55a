//! What becomes of the value of a node by its coercion.

ghost use Rattle.std.specs.Prelude.{◌≡◌, ◌++◌, ◌-◌, ◌<◌, ◌^◌, length, None, Some, IfOk, OnOk};
ghost use Rattle.hare_types.specs.declared.coercion.Ty.TheVariants as ty;
ghost use Rattle.hare_types.specs.Assign.{IsIn};
ghost use Rattle.hare_typed.specs.Typed.{mark_of};
ghost use Rattle.hare_typed.specs.Folded.{tagged_by_id};
ghost use Rattle.hare_typed.specs.Unions.{union_members};
ghost use Rattle.hare_typed.specs.Coercions.{chosen_member};
ghost use Rattle.hare_typed.specs.ConstantForms.{own_type};
ghost use Rattle.hare_const.specs.declared.outcome.Outcome.TheVariants.{Known};
ghost use Rattle.hare_const.specs.Coerced as coerced;
ghost use Rattle.hare_typed.specs.Joined.{IsJoined, Joins};
ghost use Rattle.hare_const.specs.NodeValues as spec;
ghost use Rattle.hare_const.specs.Made.{own_object};
ghost use Rattle.hare_typed.specs.Settled.{HasBase};

use crate::addresses::{null_cells, object_number, slice_of};
use crate::joined::TO_UNION;
use crate::measures::length_of_value;
use crate::number::{number_cells, number_of_value};
use crate::payloads::wider_cells;
use crate::shape::base_row;
use crate::unions::union_cells;
use hare_assign::{assignable, first_choice};
use hare_typed::{Cells, ConstObject, ConstObjects, SharedCells, Typed};
use hare_types::{Row, Ty, TypeId, TypeStore};
use std::alloc::{AllocError, Global};

/// Whether the base of a type is a slice.
fn is_slice(s: &TypeStore, t: TypeId) -> bool
    ensures { result ≡ spec.is_slice_type s.now t }
{
    matches!(base_row(s, t), Some(Row::Slice(_)))
}

/// The value of a node as a row of the table of assignability gives it at a type, other than the row to unions: a number at the type, null,
/// a slice over the node's object, or the value as it is. The object of an array that becomes a slice is put behind the others.
fn by_row(
    alloc: Global,
    s: &TypeStore,
    own: u32,
    t: &Typed,
    row: u8,
    to: TypeId,
    cells: Cells,
    made: &mut ConstObjects,
) -> Result<Cells, AllocError>
    requires own { own < 2 ^ 32 - 1 }
    requires from { IsIn s.now (own_type t.now) }
    ensures value { IfOk result (λ cs. cs ≡ coerced.value_by_row s.now own t.now row to cells) }
    ensures made { OnOk result (made.new ≡ made.old ++ coerced.object_by_row s.now own t.now row to cells) }
{
    if row == 3 || row == 4 {
        return number_cells(alloc, s, Ty::Of(to), number_of_value(s, t.ty, &cells));
    }
    match row {
        6 => null_cells(alloc),
        7 if is_slice(s, to) => {
            let cells = SharedCells::new(alloc, cells)?;
            made.push(ConstObject {
                object: object_number(own, t),
                cells,
            })?;
            slice_of(alloc, own, t, length_of_value(s, t.ty))
        }
        _ => Ok(cells),
    }
}

/// The value of a node that becomes this member of a union.
fn as_member(
    alloc: Global,
    s: &TypeStore,
    own: u32,
    t: &Typed,
    of_union: TypeId,
    member: TypeId,
    cells: Cells,
    made: &mut ConstObjects,
) -> Result<Cells, AllocError>
    requires own { own < 2 ^ 32 - 1 }
    requires from { HasBase s.now (own_type t.now) }
    requires to { HasBase s.now (ty.Of of_union) }
    requires joined { IsJoined s.now (own_type t.now) of_union }
    requires chosen { chosen_member s.now (own_type t.now) (union_members s.now of_union) ≡ Some member }
    requires within { member < length s.now.rows }
    ensures value { IfOk result (λ cs. Known cs ≡ coerced.joined_value (tagged_by_id s.now) own t.now of_union cells) }
    ensures made { OnOk result (made.new ≡ made.old ++ coerced.joined_object (tagged_by_id s.now) own t.now of_union cells) }
{
    let _law = s.declarations();
    let Some(goes) = assignable(s, member, t.ty) else {
        return Err(AllocError);
    };
    let inner = by_row(alloc, s, own, t, goes.row, member, cells, made)?;
    union_cells(alloc, s, of_union, member, &inner)
}

/// The value of a node that goes to a union: as one of its members, or where it is of a union itself with the member that it has.
fn as_union(
    alloc: Global,
    s: &TypeStore,
    own: u32,
    t: &Typed,
    of_union: TypeId,
    cells: Cells,
    made: &mut ConstObjects,
) -> Result<Cells, AllocError>
    requires own { own < 2 ^ 32 - 1 }
    requires from { HasBase s.now (own_type t.now) }
    requires to { HasBase s.now (ty.Of of_union) }
    requires joined { IsJoined s.now (own_type t.now) of_union }
    ensures value { IfOk result (λ cs. Known cs ≡ coerced.joined_value (tagged_by_id s.now) own t.now of_union cells) }
    ensures made { OnOk result (made.new ≡ made.old ++ coerced.joined_object (tagged_by_id s.now) own t.now of_union cells) }
{
    let _law = s.declarations();
    match first_choice(s, of_union, t.ty) {
        Some(member) => as_member(alloc, s, own, t, of_union, member, cells, made),
        None => wider_cells(alloc, s, t.ty, of_union, &cells),
    }
}

/// The value of a node as its coercion gives it. The object of an array that becomes a slice is put behind the others, also where it
/// becomes one as a member of a union.
pub(crate) fn coerced_cells(
    alloc: Global,
    s: &TypeStore,
    own: u32,
    t: &Typed,
    cells: Cells,
    made: &mut ConstObjects,
) -> Result<Cells, AllocError>
    requires own { own < 2 ^ 32 - 1 }
    requires from { HasBase s.now (own_type t.now) }
    requires to { HasBase s.now (mark_of t.now).coerce.to }
    requires joins { Joins s.now (own_type t.now) (mark_of t.now).coerce.row (mark_of t.now).coerce.to }
    ensures value { IfOk result (λ cs. Known cs ≡ spec.coerced_value (tagged_by_id s.now) own t.now cells) }
    ensures made { OnOk result (made.new ≡ made.old ++ own_object (tagged_by_id s.now) own t.now cells) }
{
    let _law = s.declarations();
    let Ty::Of(to) = t.coerce.to else {
        return Ok(cells);
    };
    if t.coerce.row == TO_UNION {
        return as_union(alloc, s, own, t, to, cells, made);
    }
    by_row(alloc, s, own, t, t.coerce.row, to, cells, made)
}
