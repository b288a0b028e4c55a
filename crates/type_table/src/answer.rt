//! What a line comes to.

ghost use Rattle.std.specs.Prelude.{◌≡◌, ◌<◌, length, IsTrue};
ghost use Rattle.hare_layout.specs.Members.{IsUnion};

use crate::layout::{field, fields};
use crate::unions::payload;
use crate::values::{assign, becomes, cast};
use anyhow::{Context, Result, bail, ensure};
use hare_layout::subset;
use hare_types::{Row, TypeId, TypeStore};
use spelled_types::{Table, is_definable, listing, type_in};

/// What a line comes to.
pub(crate) fn answer(table: &mut Table, line: &str) -> Result<String> {
    let (command, rest) = line.split_once(' ').unwrap_or((line, ""));
    let skipped = command.len().saturating_add(1);
    match command {
        "declare" => declare(table, rest),
        "define" => define(table, skipped, rest),
        "admit" => admit(table, skipped, rest),
        "base" => base(table, skipped, rest),
        "extent" => extent(table, skipped, rest),
        "fields" => fields(table, skipped, rest),
        "field" => field(table, skipped, rest),
        "payload" => payload(table, skipped, rest),
        "assign" => assign(table, skipped, rest),
        "becomes" => becomes(table, skipped, rest),
        "cast" => cast(table, skipped, rest),
        "subset" => is_subset(table, skipped, rest),
        "tag" => tag(table, skipped, rest),
        "untag" => {
            table.store.unmention();
            Ok(String::from_str(table.alloc, "no tags")?)
        }
        _ => bail!("no such line"),
    }
}

/// Declares a name.
fn declare(table: &mut Table, rest: &str) -> Result<String> {
    let (name, size) = rest.split_once(' ').unwrap_or((rest, "sized"));
    let decl = table.number(name)?;
    ensure!(table.store.sized(decl).is_none(), "declared before");
    let is_sized = size == "sized";
    table.store.declare(decl, is_sized)?;
    let answer = if is_sized {
        "has a size"
    } else {
        "has no size"
    };
    Ok(String::from_str(table.alloc, answer)?)
}

/// Defines a name.
fn define(table: &mut Table, skipped: usize, rest: &str) -> Result<String> {
    let (name, spelling) = rest.split_once(' ').context("no type")?;
    let decl = table.number(name)?;
    let skipped = skipped.saturating_add(name.len()).saturating_add(1);
    let t = type_in(table, skipped, spelling)?;
    ensure!(is_definable(&table.store, decl, t), "no such definition");
    table.store.define(decl, t);
    listing(table, t)
}

/// What a spelled type is reduced to.
fn admit(table: &mut Table, skipped: usize, spelling: &str) -> Result<String> {
    let t = type_in(table, skipped, spelling)?;
    listing(table, t)
}

/// What is left of a type without names and error marks.
fn base(table: &mut Table, skipped: usize, spelling: &str) -> Result<String> {
    let t = type_in(table, skipped, spelling)?;
    match table.store.base(t) {
        Some(base) => listing(table, base),
        None => bail!("no base"),
    }
}

/// The size and the alignment of a type.
fn extent(table: &mut Table, skipped: usize, spelling: &str) -> Result<String> {
    let t = type_in(table, skipped, spelling)?;
    match table.store.extent(t) {
        Some(extent) => {
            let (size, align) = (extent.size, extent.align);
            Ok(format!(in table.alloc; "size {size}, align {align}")?)
        }
        None => bail!("no extent"),
    }
}

/// Whether the type is a union.
fn is_union(store: &TypeStore, t: TypeId) -> bool
    requires { t < length store.now.rows }
    ensures { IsTrue result → IsUnion store.now t }
{
    matches!(store.row(t), Row::Union(_))
}

/// Whether the members of one union are members of another.
fn is_subset(table: &mut Table, skipped: usize, rest: &str) -> Result<String> {
    let (small, large) = rest.split_once(" of ").context("no second type")?;
    let a = type_in(table, skipped, small)?;
    let b = type_in(table, skipped, large)?;
    if !is_union(&table.store, a) || !is_union(&table.store, b) {
        bail!("no union");
    }
    let answer = if subset(&table.store, a, b) {
        "yes"
    } else {
        "no"
    };
    Ok(String::from_str(table.alloc, answer)?)
}

/// The tag of a type, which has one from here on.
fn tag(table: &mut Table, skipped: usize, spelling: &str) -> Result<String> {
    let t = type_in(table, skipped, spelling)?;
    let tag = table.store.mention(t)?;
    Ok(format!(in table.alloc; "{tag}")?)
}
