//! What each item of a line tells.

use crate::told::{Mark, Told};
use anyhow::{Context, Result, ensure};
use hare_rules::{DeclType, Hint, Label, Local, Target, Yielded};
use hare_tree::{Kind, Place, Word};
use hare_typed::Const;
use hare_types::{Ty, TypeId, TypeIds};
use spelled_types::{Table, is_definable, type_in};
use std::alloc::Global;

/// Declares a type, and defines it to be what is spelled.
pub(crate) fn enter(table: &mut Table, decl: u32, spelling: &str) -> Result<()> {
    ensure!(table.store.sized(decl).is_none(), "declared before");
    let is_sized = spelling != "never";
    table.store.declare(decl, is_sized)?;
    let t = type_in(table, 0, spelling)?;
    ensure!(is_definable(&table.store, decl, t), "no such definition");
    table.store.define(decl, t);
    Ok(())
}

/// Takes in what an item tells.
pub(crate) fn tell(table: &mut Table, told: &mut Told, item: &str) -> Result<()> {
    let (word, rest) = item.split_once(' ').unwrap_or((item, ""));
    match word {
        "let" => bind(table, told, rest, true),
        "const" => bind(table, told, rest, false),
        "type" => define(table, told, rest),
        "def" => declare(table, told, rest, Kind::Def),
        "global" => declare(table, told, rest, Kind::GlobalLet),
        "fixed" => declare(table, told, rest, Kind::GlobalConst),
        "fn" => declare(table, told, rest, Kind::Fn),
        "hint" | "result" | "values" => tell_type(table, told, word, rest),
        "loop" => put_label(table.alloc, told, rest, Target::Loop),
        "block" => put_label(table.alloc, told, rest, Target::Block),
        "case" => put_label(table.alloc, told, rest, Target::Case),
        "yielded" => put_yielded(table, told, rest),
        "part" => {
            let number = rest.parse::<usize>().context("a part without a number")?;
            told.part = Some(number);
            Ok(())
        }
        "dropped" | "deferred" | "body" => {
            tell_word(told, word);
            Ok(())
        }
        _ => put_mark(table, told, item),
    }
}

/// Takes in a word that stands alone: that the value of the node is dropped, that a deferred expression is open from here on, or that the node is the body of a
/// function.
fn tell_word(told: &mut Told, word: &str) {
    match word {
        "dropped" => told.case.hint = Hint::Drop,
        "deferred" => told.case.inside.deferred = true,
        _ => told.case.inside.body = true,
    }
}

/// Takes in a type: what is asked of the node, what the function gives, or to what the values of cases go.
fn tell_type(table: &mut Table, told: &mut Told, word: &str, spelling: &str) -> Result<()> {
    let t = type_in(table, 0, spelling)?;
    match word {
        "hint" => told.case.hint = Hint::Of(t),
        "result" => told.case.inside.result = t,
        _ => told.values = Some(t),
    }
    Ok(())
}

/// Takes in a binding, as `a: int`.
fn bind(table: &mut Table, told: &mut Told, rest: &str, mutable: bool) -> Result<()> {
    let (name, spelling) = rest.split_once(": ").context("a binding without a type")?;
    let ty = type_in(table, 0, spelling)?;
    told.locals.push(Local { ty, mutable })?;
    told.names.push(String::from_str(table.alloc, name)?)?;
    Ok(())
}

/// Takes in a declared type, as `t = *int`.
fn define(table: &mut Table, told: &mut Told, rest: &str) -> Result<()> {
    let (name, spelling) = rest
        .split_once(" = ")
        .context("a type without a definition")?;
    let decl = table.number(name)?;
    enter(table, decl, spelling)?;
    let ty = type_in(table, 0, name)?;
    let params = TypeIds::new(table.alloc);
    put_declaration(told, decl, Kind::TypeDecl, ty, params)
}

/// Takes in a declaration with a value, as `n: size`, or a function, as `f: int of str, u8`.
fn declare(table: &mut Table, told: &mut Told, rest: &str, kind: Kind) -> Result<()> {
    let (name, spelling) = rest
        .split_once(": ")
        .context("a declaration without a type")?;
    let (own, list) = spelling.split_once(" of ").unwrap_or((spelling, ""));
    let decl = table.number(name)?;
    let ty = type_in(table, 0, own)?;
    let params = types_in(table, list)?;
    put_declaration(told, decl, kind, ty, params)
}

/// The types of a list with commas between them.
fn types_in(table: &mut Table, list: &str) -> Result<TypeIds> {
    let mut types = TypeIds::new(table.alloc);
    for spelling in list.split(',') {
        let spelling = spelling.strip_prefix(' ').unwrap_or(spelling);
        if !spelling.is_empty() {
            types.push(type_in(table, 0, spelling)?)?;
        }
    }
    Ok(types)
}

/// Puts a declaration behind the others. A global that is no constant may be assigned to.
fn put_declaration(
    told: &mut Told,
    decl: u32,
    kind: Kind,
    ty: TypeId,
    params: TypeIds,
) -> Result<()> {
    let d = DeclType {
        decl,
        kind,
        ty,
        params,
        mutable: kind == Kind::GlobalLet,
        value: Const::Absent,
    };
    told.decls.push(d)?;
    Ok(())
}

/// Puts a label inside the others. It stands inside the deferred expression that is open, if one is.
fn put_label(alloc: Global, told: &mut Told, name: &str, target: Target) -> Result<()> {
    let node = u32::try_from(told.case.inside.labels.len())
        .ok()
        .context("too many labels")?;
    let label = Label {
        name: Word::copy(alloc, name.as_bytes())?,
        target,
        node,
        deferred: told.case.inside.deferred,
    };
    told.case.inside.labels.push(label)?;
    Ok(())
}

/// Takes in a value that is yielded to the node, as `8: int`.
fn put_yielded(table: &mut Table, told: &mut Told, rest: &str) -> Result<()> {
    let (column, spelling) = rest.split_once(": ").context("a value without a type")?;
    let column = column.parse::<u32>().context("a value without a column")?;
    let ty = value(table, spelling)?;
    let place = Place {
        file: 0,
        line: 2,
        column,
    };
    told.case.yields.push(Yielded { place, ty })?;
    Ok(())
}

/// Takes in what is told of the nodes at a column: their type, as `5: int`; that it goes to another, as `5 to u8`; or both, as `5: u8 to u16`.
fn put_mark(table: &mut Table, told: &mut Told, item: &str) -> Result<()> {
    let (front, goal) = match item.split_once(" to ") {
        Some((front, goal)) => (front, Some(goal)),
        None => (item, None),
    };
    let (column, own) = match front.split_once(": ") {
        Some((column, own)) => (column, Some(own)),
        None => (front, None),
    };
    let column = column.parse::<u32>().context("an item that tells nothing")?;
    let ty = match own {
        Some(spelling) => Some(value(table, spelling)?),
        None => None,
    };
    let to = match goal {
        Some(spelling) => Some(type_in(table, 0, spelling)?),
        None => None,
    };
    told.marks.push(Mark { column, ty, to })?;
    Ok(())
}

/// What a value is: `null`, `[]`, a whole number, or a type, which stands for a value of that type.
fn value(table: &mut Table, spelling: &str) -> Result<Ty> {
    match spelling {
        "null" => return Ok(Ty::Null),
        "[]" => return Ok(Ty::Empty),
        _ => {}
    }
    match spelling.parse::<i128>() {
        Ok(v) => Ok(Ty::Iconst(v)),
        Err(_) => Ok(Ty::Of(type_in(table, 0, spelling)?)),
    }
}
