//! Values and the types that they are assigned or cast to.

ghost use Rattle.std.specs.Prelude.{◌<◌, ◌≤◌, length, IfOk};
ghost use Rattle.hare_types.specs.Assign.{IsIn};

use crate::unions::{becomes_member, is_union_type};
use anyhow::{Context, Result, bail, ensure};
use hare_assign::{assignable, castable};
use hare_types::{Ty, TypeId};
use spelled_types::{Table, listing, type_in};

/// A value and the type that it is brought to.
#[derive(Drop)]
struct Pair {
    to: TypeId,
    from: Ty,
}

/// The row by which a value is assigned to a type, as `row 3`.
pub(crate) fn assign(table: &mut Table, skipped: usize, spelling: &str) -> Result<String> {
    let pair = type_and_value(table, skipped, spelling)?;
    match assignable(&table.store, pair.to, pair.from) {
        Some(coercion) => {
            let row = coercion.row;
            Ok(format!(in table.alloc; "row {row}")?)
        }
        None => Ok(String::from_str(table.alloc, "no row")?),
    }
}

/// Which member of a union a value becomes, and by which row it is assigned to that, as `u8 by row 3`.
pub(crate) fn becomes(table: &mut Table, skipped: usize, spelling: &str) -> Result<String> {
    let pair = type_and_value(table, skipped, spelling)?;
    ensure!(is_union_type(&table.store, pair.to), "no union");
    if assignable(&table.store, pair.to, pair.from).is_none() {
        return Ok(String::from_str(table.alloc, "no row")?);
    }
    match becomes_member(&table.store, pair.to, pair.from) {
        Some(coercion) => {
            let row = coercion.row;
            let member = listed(table, coercion.to)?;
            Ok(format!(in table.alloc; "{member} by row {row}")?)
        }
        None => Ok(String::from_str(table.alloc, "the member that it has")?),
    }
}

/// The type of a value that has found its type.
fn listed(table: &Table, ty: Ty) -> Result<String>
    requires { IsIn table.now.store ty }
{
    match ty {
        Ty::Of(t) => listing(table, t),
        _ => bail!("no type"),
    }
}

/// Whether a value may be cast to a type.
pub(crate) fn cast(table: &mut Table, skipped: usize, spelling: &str) -> Result<String> {
    let pair = type_and_value(table, skipped, spelling)?;
    let answer = if castable(&table.store, pair.to, pair.from) {
        "yes"
    } else {
        "no"
    };
    Ok(String::from_str(table.alloc, answer)?)
}

/// A type and a value, with `<-` between them.
fn type_and_value(table: &mut Table, skipped: usize, spelling: &str) -> Result<Pair>
    ensures to { IfOk result (λ p. p.to < length table.new.store.rows) }
    ensures from { IfOk result (λ p. IsIn table.new.store p.from) }
{
    let (to, from) = spelling.split_once(" <- ").context("no value")?;
    let skipped_value = skipped.saturating_add(to.len()).saturating_add(4);
    let to = type_in(table, skipped, to)?;
    let from = value(table, skipped_value, from)?;
    Ok(Pair { to, from })
}

/// A value: `null`, `[]`, a whole number, or a type, which stands for a value of that type.
fn value(table: &mut Table, skipped: usize, spelling: &str) -> Result<Ty>
    ensures within { IfOk result (λ f. IsIn table.new.store f) }
    ensures grows { length table.old.store.rows ≤ length table.new.store.rows }
{
    match spelling {
        "null" => return Ok(Ty::Null),
        "[]" => return Ok(Ty::Empty),
        _ => {}
    }
    match spelling.parse::<i128>() {
        Ok(v) => Ok(Ty::Iconst(v)),
        Err(_) => {
            let t = type_in(table, skipped, spelling)?;
            Ok(Ty::Of(t))
        }
    }
}
