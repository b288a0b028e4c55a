//! What the paths of files mean, as text.

use anyhow::Result;
use hare_names::Names;
use hare_sources::Named;
use hare_tree::{Kids, Kind, Meaning, Tree};
use hx_base::Text;
use std::alloc::Global;

/// What each path of the files means, a line for each, as `main.ha:1:25 m::f is declaration 3`.
pub(crate) fn listing(alloc: Global, paths: &[Text], named: &Named) -> Result<String> {
    let mut out = String::new(alloc);
    for file in 0..paths.len() {
        if let Some(tree) = named.files.get(file) {
            put_kids(&mut out, paths[file].bytes(), &named.names, &tree.decls)?;
        }
    }
    if out.is_empty() {
        out.push_str("  no paths\n")?;
    }
    Ok(out)
}

/// Writes what the paths in these trees mean.
#[cycle(trees)]
fn put_kids(out: &mut String, file: &[u8], names: &Names, kids: &Kids) -> Result<()> {
    for i in 0..kids.len() {
        if let Some(kid) = kids.get(i) {
            put_tree(out, file, names, kid)?;
        }
    }
    Ok(())
}

/// Writes what the paths in a tree mean.
#[cycle(trees)]
fn put_tree(out: &mut String, file: &[u8], names: &Names, tree: &Tree) -> Result<()> {
    if matches!(tree.kind, Kind::Path | Kind::TypePath) {
        put_path(out, file, names, tree)?;
    }
    put_kids(out, file, names, &tree.kids)
}

/// Writes what a path means.
fn put_path(out: &mut String, file: &[u8], names: &Names, path: &Tree) -> Result<()> {
    let (line, column) = (path.place.line, path.place.column);
    out.push_str("  ")?;
    put_name(out, file)?;
    write!(out, ":{line}:{column} ")?;
    put_name(out, path.text.bytes())?;
    out.push_str(" is ")?;
    put_meaning(out, names.meaning(path.place))?;
    out.push('\n')?;
    Ok(())
}

/// Writes a meaning.
fn put_meaning(out: &mut String, meaning: Meaning) -> Result<()> {
    match meaning {
        Meaning::Local(n) => write!(out, "binding {n}")?,
        Meaning::Decl(n) => write!(out, "declaration {n}")?,
        Meaning::Rt(n) => write!(out, "function {n} of rt")?,
        Meaning::None => out.push_str("nothing")?,
    }
    Ok(())
}

/// Writes a name or a path.
pub(crate) fn put_name(out: &mut String, name: &[u8]) -> Result<()> {
    for byte in name {
        out.push(*byte as char)?;
    }
    Ok(())
}
