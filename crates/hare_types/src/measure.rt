//! The extent of a row, from what is kept of the types that it holds by value.

ghost use Rattle.std.specs.Prelude.{◌≡◌, ◌<◌, ◌≤◌, ◌^◌, IfSome, option_map};
ghost use Rattle.hare_types.specs.Kept.{parts_of, known, defined, all_known, extent_over, IsBounded, AreBounded};
ghost use Rattle.hare_types.specs.declared.row.Row.TheVariants as RowOf;
ghost use Rattle.hare_types.specs.Waiting.{extents, root_at};
ghost use Rattle.hare_types.specs.Roots.{root_over};
ghost use Rattle.hare_types.specs.Numbering.{most};
ghost use Rattle.hare_types.specs.Run.{no_parts, with_parts, IsRun};

use crate::bytes::{Run, fields_extent, repeated, scalar_extent, union_extent, with_part};
use crate::declared::Declared;
use crate::extent::Extent;
use crate::id::TypeId;
use crate::kept::{Found, Kept, base_at, extent_at, found_at, nothing};
use crate::packed::PackedExtent;
use crate::parts::{part_at, part_count};
use crate::root::{PackedRoot, Root};
use crate::row::Row;
use indexmap::IndexMap;

/// What is known of the parts of a struct, tuple or union.
fn parts(row: &Row, kept: &[Kept]) -> Option<Run>
    requires { AreBounded (extents kept.now) }
    ensures value { result ≡ option_map (with_parts no_parts) (all_known (known (extents kept.now)) (parts_of row.now)) }
    ensures within { IfSome result (λ run. IsRun run × (run.end ≤ 2 ^ 119)) }
{
    let mut run = Run {
        end: 0,
        size: 0,
        align: 1,
    };
    for i in 0..part_count(row) {
        match extent_at(kept, part_at(row, i)) {
            Some(x) => run = with_part(run, x),
            None => return None,
        }
    }
    Some(run)
}

/// The extent of a row, `None` where one of the types that it is or holds by value has none that is kept.
pub(crate) fn extent_over(
    row: &Row,
    declared: &IndexMap<u32, Declared>,
    kept: &[Kept],
) -> Option<Extent>
    requires { AreBounded (extents kept.now) }
    ensures value { result ≡ extent_over (defined declared.now.entries) (known (extents kept.now)) row.now }
    ensures within { IfSome result (λ x. IsBounded x) }
{
    match row {
        Row::Scalar(k) => scalar_extent(*k),
        Row::Pointer(_) => Some(Extent { size: 8, align: 8 }),
        Row::Nullable(_) => Some(Extent { size: 8, align: 8 }),
        Row::Slice(_) => Some(Extent { size: 24, align: 8 }),
        Row::Array(n, item) => match extent_at(kept, *item) {
            Some(x) => Some(repeated(*n, x)),
            None => None,
        },
        Row::Struct(_) => match parts(row, kept) {
            Some(run) => Some(fields_extent(run)),
            None => None,
        },
        Row::Tuple(_) => match parts(row, kept) {
            Some(run) => Some(fields_extent(run)),
            None => None,
        },
        Row::Union(_) => match parts(row, kept) {
            Some(run) => Some(union_extent(run)),
            None => None,
        },
        Row::Error(inner) => extent_at(kept, *inner),
        Row::Named(decl) => named(*decl, declared, kept),
    }
}

/// The extent of what a name is defined to be.
fn named(decl: u32, declared: &IndexMap<u32, Declared>, kept: &[Kept]) -> Option<Extent>
    requires { AreBounded (extents kept.now) }
    ensures value { result ≡ extent_over (defined declared.now.entries) (known (extents kept.now)) (RowOf.Named decl) }
    ensures within { IfSome result (λ x. IsBounded x) }
{
    match declared.get(&decl) {
        Some(entry) => match entry.definition {
            Some(t) => extent_at(kept, t),
            None => None,
        },
        None => None,
    }
}

/// What follows for row `t` from what is kept of others. No root follows of a name where none is kept of the type that it is named to be.
pub(crate) fn found_over(
    row: &Row,
    t: TypeId,
    declared: &IndexMap<u32, Declared>,
    kept: &[Kept],
) -> Found
    requires few { t < most }
    requires bounded { AreBounded (extents kept.now) }
    ensures extent { result.extent ≡ extent_over (defined declared.now.entries) (known (extents kept.now)) row.now }
    ensures root { result.root ≡ root_over (defined declared.now.entries) (root_at kept.now) t row.now }
    ensures bounded { IfSome result.extent (λ x. IsBounded x) }
{
    match row {
        Row::Error(inner) => Found {
            extent: found_at(kept, *inner).extent,
            root: PackedRoot::of(Some(Root {
                base: base_at(kept, *inner),
                is_error: true,
            })),
        },
        Row::Named(decl) => match definition(*decl, declared) {
            Some(meaning) => found_at(kept, meaning),
            None => nothing(),
        },
        _ => Found {
            extent: PackedExtent::of(extent_over(row, declared, kept)),
            root: PackedRoot::of(Some(Root {
                base: Some(t),
                is_error: false,
            })),
        },
    }
}

/// What a name is defined to be.
pub(crate) fn definition(decl: u32, declared: &IndexMap<u32, Declared>) -> Option<TypeId>
    ensures { result ≡ defined declared.now.entries decl }
{
    match declared.get(&decl) {
        Some(entry) => entry.definition,
        None => None,
    }
}
