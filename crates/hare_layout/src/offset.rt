//! Where the fields of a type begin.

ghost use Rattle.std.specs.Prelude.{◌≡◌, ◌<◌, ℕ, List, length, map, Some};
ghost use Rattle.hare_types.specs.declared.extent.Extent.{Extent as ExtentOf};
ghost use Rattle.hare_types.specs.declared.row.Row.{Row as RowOf};
ghost use Rattle.hare_types.specs.ByIds.{row_at, extent_at, offset_at};
ghost use Rattle.hare_types.specs.Kept.{told, parts_of, all_known};
ghost use Rattle.hare_types.specs.Layout.{field_start};
ghost use Rattle.hare_layout.specs.Small.{IsSmall};
ghost use Rattle.hare_layout.specs.Offsets.{HasField, StartsAt};

use crate::bytes::round_up;
use crate::parts::{part_at, part_count};
use hare_types::{TypeId, TypeStore};

/// Where field `k` of a struct or tuple begins, by what the store tells of the extents of its fields.
fn start_of(s: &TypeStore, t: TypeId, k: usize) -> Option<u128>
    requires within { t < length s.now.rows }
    ensures value { (r : RowOf) (xs : List ExtentOf) → row_at s.now t ≡ Some r → all_known (extent_at s.now) (parts_of r) ≡ Some xs →
        result ≡ field_start 0 (map told xs) k }
{
    let row = s.row(t);
    if k >= part_count(row) {
        return None;
    }
    let mut end = 0;
    for i in 0..k {
        match s.extent(part_at(row, i)) {
            Some(x) => end = round_up(end, x.align) + x.size as u128,
            None => return None,
        }
    }
    match s.extent(part_at(row, k)) {
        Some(x) => Some(round_up(end, x.align)),
        None => None,
    }
}

/// Where field `k` of a struct, or component `k` of a tuple, begins: how many bytes behind the first byte of the whole. Names and error
/// marks of the type are followed, and `k` counts from 0. The conditions are those of `size_of`, and that the type has a field `k`.
/// The time is that of the `k` fields before.
pub fn offset_of(s: &TypeStore, t: TypeId, k: u32) -> u64
    requires small { IsSmall s.now t }
    requires field { HasField s.now t k }
    ensures value { StartsAt s.now t k result }
    ensures at { offset_at s.now t k ≡ Some result }
{
    match s.base(t) {
        Some(base) => match start_of(s, base, k as usize) {
            Some(start) => start as u64,
            None => unreachable!(),
        },
        None => unreachable!(),
    }
}
