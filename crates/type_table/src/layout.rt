//! Where the bytes of types lie.

ghost use Rattle.std.specs.Prelude.{◌<◌, ◌≤◌, ℕ, length};
ghost use Rattle.hare_layout.specs.Offsets.{HasField};

use anyhow::{Context, Result, bail};
use hare_layout::{align_of, is_small, offset_of, size_of};
use hare_types::{Row, TypeId, TypeStore};
use spelled_types::{Table, type_in};

/// The size and the alignment of a type, and where its fields begin.
pub(crate) fn fields(table: &mut Table, skipped: usize, spelling: &str) -> Result<String> {
    let t = type_in(table, skipped, spelling)?;
    if !is_small(&table.store, t) {
        bail!("too large");
    }
    let size = size_of(&table.store, t);
    let align = align_of(&table.store, t);
    let mut out = format!(in table.alloc; "size {size}, align {align}")?;
    for k in 0..field_count(&table.store, t) {
        let offset = offset_of(&table.store, t, k);
        out.push_str(if k == 0 { ", fields at " } else { ", " })?;
        write!(out, "{offset}")?;
    }
    Ok(out)
}

/// At which place a struct has the field of a name, counted from 0.
pub(crate) fn field(table: &mut Table, skipped: usize, rest: &str) -> Result<String> {
    let (name, spelling) = rest.split_once(" of ").context("no type")?;
    let skipped = skipped.saturating_add(name.len()).saturating_add(4);
    let t = type_in(table, skipped, spelling)?;
    let number = table.number(name)?;
    match table.store.field(t, number) {
        Some(place) => Ok(format!(in table.alloc; "field {place}")?),
        None => Ok(String::from_str(table.alloc, "no field")?),
    }
}

/// How many fields or components the base of the type has.
fn field_count(store: &TypeStore, t: TypeId) -> u32
    requires { t < length store.now.rows }
    ensures { (k : ℕ) → k < result → HasField store.now t k }
{
    match store.base(t) {
        Some(base) => match store.row(base) {
            Row::Struct(fields) => narrowed(fields.len()),
            Row::Tuple(types) => narrowed(types.len()),
            _ => 0,
        },
        None => 0,
    }
}

/// The number, or 0 where it is too large.
fn narrowed(n: usize) -> u32
    ensures { result ≤ n }
{
    match u32::try_from(n) {
        Ok(n) => n,
        Err(_) => 0,
    }
}
