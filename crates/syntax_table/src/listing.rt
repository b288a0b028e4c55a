//! Trees as text: each in parentheses, with its kind, its text, the suffix of its number and its kids.

use anyhow::{Context, Result};
use hare_tree::{FileTree, Kids, Kind, Suffix, Tree};
use std::alloc::{AllocError, Global};

/// The tree of a file as text, as `(File (GlobalLet None (Name x) None (Number 1)))`. A kid that is not there is `None`.
pub(crate) fn listing(alloc: Global, file: &FileTree) -> Result<String> {
    let mut out = String::from_str(alloc, "(File")?;
    put_kids(&mut out, &file.uses)?;
    put_kids(&mut out, &file.decls)?;
    out.push(')')?;
    Ok(out)
}

/// Writes trees, with a blank in front of each.
#[cycle(trees)]
fn put_kids(out: &mut String, kids: &Kids) -> Result<()> {
    for i in 0..kids.len() {
        if let Some(kid) = kids.get(i) {
            out.push(' ')?;
            put_tree(out, kid)?;
        }
    }
    Ok(())
}

/// Writes a tree.
#[cycle(trees)]
pub(crate) fn put_tree(out: &mut String, tree: &Tree) -> Result<()> {
    let kind = tree.kind;
    if kind == Kind::None {
        out.push_str("None")?;
        return Ok(());
    }
    write!(out, "({kind:?}")?;
    put_text(out, kind, tree.text.bytes())?;
    put_suffix(out, tree.suffix)?;
    put_kids(out, &tree.kids)?;
    out.push(')')?;
    Ok(())
}

/// Writes the text of a tree of this kind, if it has one. What a string holds is in quotes, and so is a rune as it is spelled.
fn put_text(out: &mut String, kind: Kind, text: &[u8]) -> Result<()> {
    let text = str::from_utf8(text).context("a text that is not UTF-8")?;
    match kind {
        Kind::Str | Kind::Message | Kind::RuneLit => put_quoted(out, text)?,
        _ if text.is_empty() => {}
        _ => write!(out, " {text}")?,
    }
    Ok(())
}

/// Writes a text in quotes. A quote and a backslash have a backslash in front, and a control character is written by its number.
pub(crate) fn put_quoted(out: &mut String, text: &str) -> Result<(), AllocError> {
    out.push_str(" \"")?;
    for c in text.chars() {
        match c {
            '"' | '\\' => write!(out, "\\{c}")?,
            '\0'..='\x1f' | '\x7f' => {
                let number = u32::from(c);
                write!(out, "\\x{number:02x}")?;
            }
            _ => out.push(c)?,
        }
    }
    out.push('"')
}

/// Writes the suffix of a number, if it has one.
pub(crate) fn put_suffix(out: &mut String, suffix: Suffix) -> Result<(), AllocError> {
    out.push_str(match suffix {
        Suffix::None => "",
        Suffix::I8 => " i8",
        Suffix::I16 => " i16",
        Suffix::I32 => " i32",
        Suffix::I64 => " i64",
        Suffix::U8 => " u8",
        Suffix::U16 => " u16",
        Suffix::U32 => " u32",
        Suffix::U64 => " u64",
        Suffix::I => " i",
        Suffix::U => " u",
        Suffix::Z => " z",
    })
}
