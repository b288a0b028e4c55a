//! The cells of values of unions.

ghost use Rattle.std.specs.Prelude.{◌≡◌, ◌<◌, ◌++◌, length, Some, IfOk, IsSome};
ghost use Rattle.hare_types.specs.ByIds.{members_at, payload_at};
ghost use Rattle.hare_typed.specs.Cells.{undefined_cells};
ghost use Rattle.hare_typed.specs.Folded.{tagged_by_id};
ghost use Rattle.hare_typed.specs.Unions as spec;
ghost use Rattle.hare_typed.specs.Sizes.{Fits};

use crate::number::byte_cells_of;
use crate::sizes::{align_of, size_of};
use hare_typed::{Cell, Cells};
use hare_types::{TypeId, TypeStore};
use std::alloc::{AllocError, Global};

/// How many cells a tag has.
const TAG_CELLS: usize = 4;

/// The cells with so many undefined ones behind them, which take the memory of one.
pub(crate) fn with_undefined(mut cells: Cells, count: usize) -> Result<Cells, AllocError>
    ensures { IfOk result (λ more. more ≡ cells ++ undefined_cells count) }
{
    if count == 0 {
        return Ok(cells);
    }
    let from = cells.len();
    cells.push(Cell::Undef)?;
    cells.repeat(from, count - 1)?;
    Ok(cells)
}

/// Where the payload of a union begins: how many bytes behind the first byte of the whole, whichever member it is of.
pub(crate) fn payload_of(s: &TypeStore, t: TypeId) -> u64
    requires fits { Fits s.now t }
    requires union { IsSome (members_at s.now t) }
    ensures { payload_at s.now t ≡ Some result }
{
    align_of(s, t)
}

/// The cells of a union's value in a constant, of these cells of one of its members: the member's tag, which is one more than the member's
/// id, and at the place of the payload its cells. All other cells are undefined, and take the memory of one. The conditions are that the
/// size of the union can be told, and that the member is in the store. Where the cells have no room behind the tag, the answer is want of
/// memory: no union has such a member.
pub(crate) fn union_cells(
    alloc: Global,
    s: &TypeStore,
    of_union: TypeId,
    member: TypeId,
    cells: &Cells,
) -> Result<Cells, AllocError>
    requires fits { Fits s.now of_union }
    requires union { IsSome (members_at s.now of_union) }
    requires member { member < length s.now.rows }
    ensures { IfOk result (λ whole. whole ≡ spec.union_cells (tagged_by_id s.now) of_union member cells.now) }
{
    let _law = s.declarations();
    let payload = payload_of(s, of_union) as usize;
    let size = size_of(s, of_union) as usize;
    if payload < TAG_CELLS || size < payload || size - payload < cells.len() {
        return Err(AllocError);
    }
    let tag = u64::from(member.index()) + 1;
    let tagged = byte_cells_of(alloc, tag, TAG_CELLS as u32)?;
    let mut whole = with_undefined(tagged, payload - TAG_CELLS)?;
    whole.append(alloc, cells)?;
    with_undefined(whole, size - payload - cells.len())
}
