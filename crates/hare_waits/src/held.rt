//! The name for which a type waits.

ghost use Rattle.std.specs.Prelude.{◌≡◌, ◌<◌, ◌+◌, length, slice_get, Some, IfOk, IfSome};
ghost use Rattle.hare_types.specs.Store.{definition_of};
ghost use Rattle.hare_waits.specs.Held.{held_by, Holds, WaitsFor};

use hare_types::{Row, TypeId, TypeStore};
use indexmap::IndexMap;
use std::alloc::AllocError;

/// By the ids of types, how many of the types that each holds by value are known to have an extent, from the first on: they are not looked
/// at again.
pub(crate) type Seen = IndexMap<u32, usize>;

/// How many types a row holds by value.
fn held_count(s: &TypeStore, row: &Row) -> usize
    ensures { result ≡ length (held_by (definition_of s.now) row.now) }
{
    match row {
        Row::Array(_, _) | Row::Error(_) => 1,
        Row::Struct(fields) => fields.len(),
        Row::Tuple(types) | Row::Union(types) => types.len(),
        Row::Named(decl) => match s.definition(*decl) {
            Some(_) => 1,
            None => 0,
        },
        _ => 0,
    }
}

/// The type at a place among those that a row holds by value.
fn held_at(s: &TypeStore, row: &Row, place: usize) -> TypeId
    requires { place < length (held_by (definition_of s.now) row.now) }
    ensures { slice_get (held_by (definition_of s.now) row.now) place ≡ Some result }
{
    match row {
        Row::Array(_, item) => *item,
        Row::Error(inner) => *inner,
        Row::Struct(fields) => fields.as_slice()[place].ty,
        Row::Tuple(types) | Row::Union(types) => types.as_slice()[place],
        Row::Named(decl) => match s.definition(*decl) {
            Some(meaning) => meaning,
            None => unreachable!(),
        },
        _ => unreachable!(),
    }
}

/// The first type without an extent that a type holds by value. Where all have one, the answer is want of memory.
fn first_unknown(seen: &mut Seen, s: &TypeStore, t: TypeId) -> Result<TypeId, AllocError>
    requires { t < length s.now.rows }
    ensures { IfOk result (λ i. Holds s.now t i) }
{
    let row = s.row(t);
    let from = seen.get(&t.index()).copied().unwrap_or(0);
    for place in from..held_count(s, row) {
        let held = held_at(s, row, place);
        if s.extent(held).is_none() {
            seen.insert(t.index(), place)?;
            return Ok(held);
        }
    }
    Err(AllocError)
}

/// The name that a type is, where it is one that is not defined.
fn undefined_name(s: &TypeStore, t: TypeId) -> Option<u32>
    requires { t < length s.now.rows }
    ensures { IfSome result (λ d. WaitsFor s.now t d) }
{
    match s.row(t) {
        Row::Named(decl) => match s.definition(*decl) {
            Some(_) => None,
            None => Some(*decl),
        },
        _ => None,
    }
}

/// A name for which a type waits whose extent is not known. Types that hold never or opaque by value are refused where they are written,
/// and do not come here: they, and types that the store does not have, are answered as want of memory.
///
/// Goes down from a type to one that it holds by value, as deep as types are written in one another.
pub(crate) fn awaited_name(seen: &mut Seen, s: &TypeStore, t: TypeId) -> Result<u32, AllocError>
    ensures { IfOk result (λ d. WaitsFor s.now t d) }
{
    let mut at = t;
    for _turn in 0..u32::MAX {
        if !s.has_size(at) {
            return Err(AllocError);
        }
        if let Some(name) = undefined_name(s, at) {
            return Ok(name);
        }
        at = first_unknown(seen, s, at)?;
    }
    Err(AllocError)
}
