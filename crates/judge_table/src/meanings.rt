//! What paths mean.

use crate::told::Told;
use anyhow::Result;
use hare_tree::{Kind, Meaning, Tree};
use hare_typed::TypedKids;
use spelled_types::{NOMEM, Table, text};

/// What a node means where it is a path: the last binding of its name; else a function of the runtime or a declaration.
pub(crate) fn meaning(table: &mut Table, told: &Told, tree: &Tree) -> Result<Meaning> {
    if !matches!(tree.kind, Kind::Path | Kind::TypePath) {
        return Ok(Meaning::None);
    }
    let name = text(tree)?;
    if tree.kind == Kind::Path {
        if let Some(n) = last_binding(told, name) {
            return Ok(Meaning::Local(n));
        }
        if let Some(n) = runtime_function(name) {
            return Ok(Meaning::Rt(n));
        }
    }
    let n = table.number(name)?;
    if n == NOMEM || told.decls.find(n).is_some() {
        Ok(Meaning::Decl(n))
    } else {
        Ok(Meaning::None)
    }
}

/// The number of the last binding of this name.
fn last_binding(told: &Told, name: &str) -> Option<u32> {
    let mut found = None;
    for i in 0..told.names.len() {
        if told.names[i].as_str() == name {
            found = u32::try_from(i).ok();
        }
    }
    found
}

/// The number of the function of the runtime that is spelled so.
fn runtime_function(name: &str) -> Option<u32> {
    match name {
        "rt::puts" => Some(0),
        "rt::write" => Some(1),
        "rt::read" => Some(2),
        "rt::bytes" => Some(3),
        "rt::nargs" => Some(4),
        "rt::arg" => Some(5),
        "rt::exit" => Some(6),
        _ => None,
    }
}

/// What the path of a node means, where this is what the node means itself: that of the callee of a call, and of the type of a struct literal.
pub(crate) fn path_meaning(own: Meaning, kind: Kind, kids: &TypedKids) -> Meaning {
    match kids.get(0) {
        Some(first) => match kind {
            Kind::Call if first.kind == Kind::Path => first.meaning,
            Kind::StructLit => first.meaning,
            _ => own,
        },
        None => own,
    }
}
