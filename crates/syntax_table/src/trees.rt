//! Trees that are written as `listing` writes them, also such as no file has.

use crate::answer::FILE;
use anyhow::{Context, Result, bail};
use hare_tree::{FileTree, Kids, Kind, Place, Suffix, Tree, Word};
use std::alloc::Global;

/// The file of some trees, side by side: of those of imports in front, and of the declarations behind them. Texts have no blanks and no
/// parentheses here, and numbers no values.
pub(crate) fn file_in(alloc: Global, text: &str) -> Result<FileTree> {
    let mut file = FileTree {
        file: FILE,
        uses: Kids::new(alloc),
        decls: Kids::new(alloc),
    };
    let text = text.replace(alloc, '(', " ( ")?.replace(alloc, ')', " ) ")?;
    put_all(alloc, &mut file, text.as_str())?;
    Ok(file)
}

/// Puts the trees of a text with a blank between any two words into a file.
fn put_all(alloc: Global, file: &mut FileTree, text: &str) -> Result<()> {
    let mut open = Vec::new(alloc);
    let mut begins = false;
    for word in text.split_whitespace() {
        put_word(alloc, file, &mut open, begins, word)?;
        begins = match word {
            "(" => true,
            ")" | "None" => begins,
            _ => false,
        };
    }
    Ok(())
}

/// Takes in a word; the trees that are not at their end are open. A word behind a parenthesis begins a tree.
fn put_word(
    alloc: Global,
    file: &mut FileTree,
    open: &mut Vec<Tree>,
    begins: bool,
    word: &str,
) -> Result<()> {
    match word {
        "(" => {}
        ")" => {
            let tree = open.pop().context("a parenthesis too many")?;
            put(file, open, tree)?;
        }
        "None" => put(file, open, tree_of(alloc, Kind::None))?,
        _ if begins => open.push(tree_of(alloc, kind_in(word)?))?,
        _ => {
            let tree = open.last_mut().context("a text without a tree")?;
            tree.text = Word::copy(alloc, word.as_bytes())?;
        }
    }
    Ok(())
}

/// Puts a tree behind the kids of the last open one, or where none is open into the file.
fn put(file: &mut FileTree, open: &mut Vec<Tree>, tree: Tree) -> Result<()> {
    match open.last_mut() {
        Some(parent) => parent.kids.push(tree)?,
        None if tree.kind == Kind::UseNames && file.decls.len() == 0 => file.uses.push(tree)?,
        None => file.decls.push(tree)?,
    }
    Ok(())
}

/// A tree of a kind, without text and kids.
fn tree_of(alloc: Global, kind: Kind) -> Tree {
    Tree {
        kind,
        place: Place {
            file: FILE,
            line: 1,
            column: 1,
        },
        text: Word::new(alloc),
        number: 0,
        suffix: Suffix::None,
        kids: Kids::new(alloc),
    }
}

/// The kind of this name; of the kinds that lines have.
fn kind_in(word: &str) -> Result<Kind> {
    Ok(match word {
        "Arith" => Kind::Arith,
        "Assign" => Kind::Assign,
        "Block" => Kind::Block,
        "Call" => Kind::Call,
        "Def" => Kind::Def,
        "Equal" => Kind::Equal,
        "Export" => Kind::Export,
        "Field" => Kind::Field,
        "Fn" => Kind::Fn,
        "If" => Kind::If,
        "ImportPath" => Kind::ImportPath,
        "Less" => Kind::Less,
        "Let" => Kind::Let,
        "Name" => Kind::Name,
        "Params" => Kind::Params,
        "Paren" => Kind::Paren,
        "Path" => Kind::Path,
        "TrailingComma" => Kind::TrailingComma,
        "Tuple" => Kind::Tuple,
        "TypeScalar" => Kind::TypeScalar,
        "UseNames" => Kind::UseNames,
        "Void" => Kind::Void,
        "Yield" => Kind::Yield,
        _ => bail!("no kind of a tree here: {word}"),
    })
}
