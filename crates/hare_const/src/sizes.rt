//! Sizes of types, and where their parts begin.

ghost use Rattle.std.specs.Prelude.{◌≡◌, ◌<◌, ◌≤◌, ◌+◌, ◌^◌, ℕ, List, IsTrue, ◌↔◌, length, slice_get, Some, IfSome, IfOk};
ghost use Rattle.hare_types.specs.declared.extent.Extent.{Extent as ExtentOf};
ghost use Rattle.hare_types.specs.ByIds.{extent_at, size_at, align_at, offset_at};
ghost use Rattle.hare_types.specs.Kept.{all_known};
ghost use Rattle.hare_types.specs.Layout.{field_start, round_up as spec_round_up};
ghost use Rattle.hare_typed.specs.Sizes as spec;

use crate::shape::base_row;
use hare_types::{Extent, Row, TypeId, TypeStore};
use std::alloc::{AllocError, Global};

/// The most bytes that a type has which a program may spell.
const MOST_BYTES: u64 = 67_108_864;

/// Whether a type has at most that many bytes.
pub(crate) fn fits(s: &TypeStore, t: TypeId) -> bool
    ensures { IsTrue result ↔ spec.Fits s.now t }
{
    match s.extent(t) {
        Some(x) => x.size <= MOST_BYTES,
        None => false,
    }
}

/// The extent of a type that fits, or of a part of one.
fn extent_of(s: &TypeStore, t: TypeId) -> Option<Extent>
    requires { spec.IsFew s.now t }
    ensures value { result ≡ extent_at s.now t }
    ensures modest { IfSome result spec.IsModest }
{
    s.extent(t)
}

/// How many bytes a value of the type takes.
pub(crate) fn size_of(s: &TypeStore, t: TypeId) -> u64
    requires { spec.Fits s.now t }
    ensures value { size_at s.now t ≡ result }
    ensures few { result ≤ 67108864 }
{
    match extent_of(s, t) {
        Some(x) => x.size,
        None => 0,
    }
}

/// Of what the address of a value of the type is a multiple.
pub(crate) fn align_of(s: &TypeStore, t: TypeId) -> u64
    requires { spec.Fits s.now t }
    ensures { align_at s.now t ≡ result }
{
    match extent_of(s, t) {
        Some(x) => x.align,
        None => 1,
    }
}

/// How many fields a struct has, or components a tuple; another row has none.
pub(crate) fn part_count(row: &Row) -> usize
    ensures { result ≡ length (spec.parts_in row.now) }
{
    match row {
        Row::Struct(fields) => fields.len(),
        Row::Tuple(types) => types.len(),
        _ => 0,
    }
}

/// The type of the part with so many before it.
fn part_at(row: &Row, i: usize) -> TypeId
    requires { i < length (spec.parts_in row.now) }
    ensures { slice_get (spec.parts_in row.now) i ≡ Some result }
{
    match row {
        Row::Struct(fields) => fields.as_slice()[i].ty,
        Row::Tuple(types) => types.as_slice()[i],
        _ => unreachable!(),
    }
}

/// `n` rounded up to a multiple of `align`.
fn round_up(n: u128, align: u64) -> u128
    requires few { n ≤ 2 ^ 120 }
    requires low { 1 ≤ align }
    requires high { align ≤ 8 }
    ensures value { result ≡ spec_round_up n align }
    ensures within { result ≤ n + 7 }
{
    let align = align as u128;
    (n + (align - 1)) / align * align
}

/// Where the part with so many before it begins, in a struct or tuple of this row. The time is that of the parts before it.
fn start_of(s: &TypeStore, row: &Row, k: usize) -> Option<u128>
    requires part { k < length (spec.parts_in row.now) }
    requires few { spec.AreFew s.now row.now }
    ensures { (xs : List ExtentOf) → all_known (extent_at s.now) (spec.parts_in row.now) ≡ Some xs → result ≡ field_start 0 xs k }
{
    let mut end = 0;
    for i in 0..k {
        match extent_of(s, part_at(row, i)) {
            Some(x) => end = round_up(end, x.align) + x.size as u128,
            None => return None,
        }
    }
    match extent_of(s, part_at(row, k)) {
        Some(x) => Some(round_up(end, x.align)),
        None => None,
    }
}

/// Where the parts of a struct or tuple of this row begin, in their order. Want of memory where the extent of one is not known, or one
/// would begin behind the greatest type; of a type that fits neither is so.
fn starts_in(alloc: Global, s: &TypeStore, row: &Row) -> Result<Vec<u64>, AllocError>
    requires { spec.AreFew s.now row.now }
    ensures { IfOk result (λ starts. (xs : List ExtentOf) → all_known (extent_at s.now) (spec.parts_in row.now) ≡ Some xs → (k : ℕ) →
        slice_get starts.items k ≡ field_start 0 xs k) }
{
    let mut starts = Vec::new(alloc);
    let mut end = 0;
    for i in 0..part_count(row) {
        let Some(x) = extent_of(s, part_at(row, i)) else {
            return Err(AllocError);
        };
        let start = round_up(u128::from(end), x.align) as u64;
        if start > MOST_BYTES {
            return Err(AllocError);
        }
        starts.push(start)?;
        end = start + x.size;
    }
    Ok(starts)
}

/// Where each part of a type begins: how many bytes behind the first byte of the whole. Names and error marks of the type are followed. The
/// time is that of the parts.
pub(crate) fn starts_of(alloc: Global, s: &TypeStore, t: TypeId) -> Result<Vec<u64>, AllocError>
    requires { spec.Fits s.now t }
    ensures { IfOk result (λ starts. (k : ℕ) → spec.HasPart s.now t k → slice_get starts.items k ≡ offset_at s.now t k) }
{
    match base_row(s, t) {
        Some(row) => starts_in(alloc, s, row),
        None => Ok(Vec::new(alloc)),
    }
}

/// Where a part of a type begins: how many bytes behind the first byte of the whole. Names and error marks of the type are followed, and
/// `k` counts from 0. The time is that of the parts before it.
pub(crate) fn offset_of(s: &TypeStore, t: TypeId, k: u32) -> u64
    requires fits { spec.Fits s.now t }
    requires part { spec.HasPart s.now t k }
    ensures { offset_at s.now t k ≡ Some result }
{
    match base_row(s, t) {
        Some(row) => match start_of(s, row, k as usize) {
            Some(start) => start as u64,
            None => unreachable!(),
        },
        None => unreachable!(),
    }
}

/// Whether a type that fits has a part with so many before it.
pub(crate) fn has_part(s: &TypeStore, t: TypeId, k: u128) -> bool
    requires { spec.Fits s.now t }
    ensures { IsTrue result ↔ spec.HasPart s.now t k }
{
    match base_row(s, t) {
        Some(row) => k < part_count(row) as u128,
        None => false,
    }
}
