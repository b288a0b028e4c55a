//! The tokens that spell the trees of files.

use crate::answer::FILE;
use crate::listing::put_quoted;
use anyhow::{Context, Result, bail, ensure};
use hare_lex::tokens;
use hare_tree::{FileTree, Token, TokenKind, Tokens, fits, spell};
use std::alloc::Global;

/// Whether the trees of a file fit the language, and the texts of the tokens that spell them, with a blank in front of each.
pub(crate) fn spelled(alloc: Global, file: &FileTree) -> Result<String> {
    let mut out = String::from_str(alloc, if fits(file) { "fits:" } else { "does not fit:" })?;
    let tokens = spell(alloc, file)?;
    for i in 0..tokens.len() {
        if let Some(token) = tokens.get(i) {
            put_text(&mut out, token)?;
        }
    }
    Ok(out)
}

/// The same of the file that was read from a text, where its tokens have the kinds and texts of those of the text.
pub(crate) fn spelled_again(alloc: Global, source: &[u8], file: &FileTree) -> Result<String> {
    ensure!(source.len() < 4_294_967_295, "a file of 4 GiB");
    let Ok(found) = tokens(alloc, FILE, source) else {
        bail!("a text that breaks off");
    };
    ensure!(
        are_alike(&found, &spell(alloc, file)?),
        "spelled by other tokens"
    );
    spelled(alloc, file)
}

/// Whether two lists have the same kinds and texts of tokens.
fn are_alike(a: &Tokens, b: &Tokens) -> bool {
    for i in 0..a.len() {
        match (a.get(i), b.get(i)) {
            (Some(x), Some(y)) if x.kind == y.kind && x.text.bytes() == y.text.bytes() => {}
            _ => return false,
        }
    }
    a.len() == b.len()
}

/// Writes the text of a token: that of a string in quotes, and a word for the end.
fn put_text(out: &mut String, token: &Token) -> Result<()> {
    let text = str::from_utf8(token.text.bytes()).context("a text that is not UTF-8")?;
    match token.kind {
        TokenKind::Str => put_quoted(out, text)?,
        TokenKind::End => out.push_str(" End")?,
        _ => write!(out, " {text}")?,
    }
    Ok(())
}
