//! Types as text.

ghost use Rattle.std.specs.Prelude.{◌<◌, length};
ghost use Rattle.hare_types.specs.Rows.{AllBelow};

use anyhow::Result;
use hare_types::{Row, TypeId, TypeStore};
use spelled_types::word;

/// The refusal of memory, which no source declares.
pub(crate) const NOMEM: u32 = 4_294_967_295;

/// Writes a type as a program spells it. The members of a union stand in the order in which their types came into the store; a struct is told without its
/// fields.
#[cycle(types)]
pub(crate) fn put_type(out: &mut String, s: &TypeStore, t: TypeId) -> Result<()>
    requires { t < length s.now.rows }
{
    match s.row(t) {
        Row::Scalar(k) => out.push_str(word(*k))?,
        Row::Pointer(to) => put_behind(out, s, t, "*", *to)?,
        Row::Nullable(to) => put_behind(out, s, t, "nullable *", *to)?,
        Row::Slice(item) => put_behind(out, s, t, "[]", *item)?,
        Row::Array(n, item) => {
            write!(out, "[{n}]")?;
            put_behind(out, s, t, "", *item)?;
        }
        Row::Error(inner) => put_behind(out, s, t, "!", *inner)?,
        Row::Named(decl) => put_name(out, *decl)?,
        Row::Struct(_) => out.push_str("struct")?,
        Row::Tuple(types) => put_types(out, s, t, ", ", types.as_slice())?,
        Row::Union(types) => put_types(out, s, t, " | ", types.as_slice())?,
    }
    Ok(())
}

/// Writes a mark and the type behind it, which came into the store before the type `t` that both are.
#[cycle(types)]
fn put_behind(out: &mut String, s: &TypeStore, t: TypeId, mark: &str, inner: TypeId) -> Result<()>
    requires within { t < length s.now.rows }
    requires before { inner < t }
{
    out.push_str(mark)?;
    put_type(out, s, inner)
}

/// Writes the name of a declared type: the refusal of memory, or its number.
fn put_name(out: &mut String, decl: u32) -> Result<()> {
    if decl == NOMEM {
        out.push_str("rt::nomem")?;
    } else {
        write!(out, "type {decl}")?;
    }
    Ok(())
}

/// Writes the components or members of the type `t`, with a mark between them.
#[cycle(types)]
fn put_types(
    out: &mut String,
    s: &TypeStore,
    t: TypeId,
    between: &str,
    types: &[TypeId],
) -> Result<()>
    requires within { t < length s.now.rows }
    requires before { AllBelow t types.now }
{
    let mut is_first = true;
    for inner in types {
        out.push_str(if is_first { "(" } else { between })?;
        put_behind(out, s, t, "", *inner)?;
        is_first = false;
    }
    out.push(')')?;
    Ok(())
}
