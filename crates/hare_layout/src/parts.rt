//! The types that structs, tuples and unions hold.

ghost use Rattle.std.specs.Prelude.{◌≡◌, ◌<◌, length, slice_get, Some};
ghost use Rattle.hare_types.specs.Kept.{parts_of};

use hare_types::{Row, TypeId};

/// How many types a struct, tuple or union holds.
pub(crate) fn part_count(row: &Row) -> usize
    ensures { result ≡ length (parts_of row.now) }
{
    match row {
        Row::Struct(fields) => fields.len(),
        Row::Tuple(types) => types.len(),
        Row::Union(members) => members.len(),
        _ => 0,
    }
}

/// The type of part `i` of a struct, tuple or union.
pub(crate) fn part_at(row: &Row, i: usize) -> TypeId
    requires { i < length (parts_of row.now) }
    ensures { slice_get (parts_of row.now) i ≡ Some result }
{
    match row {
        Row::Struct(fields) => fields.as_slice()[i].ty,
        Row::Tuple(types) => types.as_slice()[i],
        Row::Union(members) => members.as_slice()[i],
        _ => unreachable!(),
    }
}
