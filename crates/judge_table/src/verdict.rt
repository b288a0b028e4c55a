//! What a judge answers, as text.

use crate::ready::is_defined_type;
use anyhow::{Result, bail};
use hare_rules::Verdict;
use hare_tree::Fault;
use hare_types::{Coercion, Ty};
use spelled_types::{Table, put_type};

/// A fault with the column at which it stands.
pub(crate) fn refused(table: &Table, fault: Fault) -> Result<String> {
    let (number, column) = (fault.number, fault.place.column);
    Ok(format!(in table.alloc; "E{number} at {column}")?)
}

/// The type of a node, what becomes of its value, and the coercions that it settles.
pub(crate) fn accepted(table: &Table, verdict: &Verdict) -> Result<String> {
    let mut out = String::from_str(table.alloc, "ok ")?;
    put_value(&mut out, table, verdict.ty)?;
    if verdict.own.row != 1 {
        out.push_str(" to ")?;
        put_coercion(&mut out, table, &verdict.own)?;
    }
    let mut between = " with ";
    for coercion in verdict.coerce.as_slice() {
        out.push_str(between)?;
        put_coercion(&mut out, table, coercion)?;
        between = ", ";
    }
    Ok(out)
}

/// Writes to what a value goes, and by which row, unless it stays as it is.
fn put_coercion(out: &mut String, table: &Table, coercion: &Coercion) -> Result<()> {
    put_value(out, table, coercion.to)?;
    let row = coercion.row;
    if row != 1 {
        write!(out, " by row {row}")?;
    }
    Ok(())
}

/// Writes the type of a value.
fn put_value(out: &mut String, table: &Table, ty: Ty) -> Result<()> {
    match ty {
        Ty::Of(t) => {
            if !is_defined_type(table.alloc, &table.store, t)? {
                bail!("a type that is not defined");
            }
            put_type(out, table, t)
        }
        Ty::Iconst(v) => Ok(write!(out, "iconst {v}")?),
        Ty::Null => Ok(out.push_str("null")?),
        Ty::Empty => Ok(out.push_str("[]")?),
    }
}
