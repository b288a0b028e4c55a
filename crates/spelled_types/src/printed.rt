//! Types as text.

ghost use Rattle.std.specs.Prelude.{◌≡◌, ◌<◌, ◌≤◌, length};
ghost use Rattle.hare_types.specs.Rows.{AllBelow, FieldsBelow};

use crate::entered::{NOMEM, Table};
use crate::kinds::word;
use anyhow::Result;
use hare_types::{Field, Row, TypeId};

/// The type as a program spells it, as [`put_type`] writes it.
pub fn listing(table: &Table, t: TypeId) -> Result<String>
    requires { t < length table.now.store.rows }
{
    let mut out = String::new(table.alloc);
    put_type(&mut out, table, t)?;
    Ok(out)
}

/// Writes a type as a program spells it. The members of a union stand in the order in which their types were first spelled.
#[cycle(types)]
pub fn put_type(out: &mut String, table: &Table, t: TypeId) -> Result<()>
    requires { t < length table.now.store.rows }
{
    match table.store.row(t) {
        Row::Scalar(k) => out.push_str(word(*k))?,
        Row::Pointer(to) => put_behind(out, table, t, "*", *to)?,
        Row::Nullable(to) => put_behind(out, table, t, "nullable *", *to)?,
        Row::Slice(item) => put_behind(out, table, t, "[]", *item)?,
        Row::Array(n, item) => {
            let length = format!(in table.alloc; "[{n}]")?;
            put_behind(out, table, t, length.as_str(), *item)?;
        }
        Row::Error(inner) => put_behind(out, table, t, "!", *inner)?,
        Row::Named(decl) => put_name(out, table, *decl)?,
        Row::Struct(fields) => put_fields(out, table, t, fields.as_slice())?,
        Row::Tuple(types) => put_types(out, table, t, ", ", types.as_slice())?,
        Row::Union(types) => put_types(out, table, t, " | ", types.as_slice())?,
    }
    Ok(())
}

/// Writes a mark and the type behind it, which came into the store before the type `t` that both are.
#[cycle(types)]
fn put_behind(out: &mut String, table: &Table, t: TypeId, mark: &str, inner: TypeId) -> Result<()>
    requires within { t < length table.now.store.rows }
    requires before { inner < t }
{
    out.push_str(mark)?;
    put_type(out, table, inner)
}

/// Writes a name.
fn put_name(out: &mut String, table: &Table, number: u32) -> Result<()> {
    if number == NOMEM {
        out.push_str("rt::nomem")?;
        return Ok(());
    }
    if let Some(name) = table.names.get(number as usize) {
        out.push_str(name.as_str())?;
    }
    Ok(())
}

/// Writes the fields of the struct `t`.
#[cycle(types)]
fn put_fields(out: &mut String, table: &Table, t: TypeId, fields: &[Field]) -> Result<()>
    requires within { t < length table.now.store.rows }
    requires before { FieldsBelow t fields.now }
{
    let mut is_first = true;
    for field in fields {
        out.push_str(if is_first { "struct { " } else { ", " })?;
        put_name(out, table, field.name)?;
        put_behind(out, table, t, ": ", field.ty)?;
        is_first = false;
    }
    out.push_str(" }")?;
    Ok(())
}

/// Writes the components or members of the type `t`, with a mark between them.
#[cycle(types)]
fn put_types(
    out: &mut String,
    table: &Table,
    t: TypeId,
    between: &str,
    types: &[TypeId],
) -> Result<()>
    requires within { t < length table.now.store.rows }
    requires before { AllBelow t types.now }
{
    let mut is_first = true;
    for inner in types {
        out.push_str(if is_first { "(" } else { between })?;
        put_behind(out, table, t, "", *inner)?;
        is_first = false;
    }
    out.push(')')?;
    Ok(())
}
