//! The tokens of texts.

use crate::answer::{FILE, told};
use crate::listing::{put_quoted, put_suffix};
use anyhow::{Context, Result, bail, ensure};
use hare_lex::{LexStop, tokens};
use hare_tree::{Fault, Token, TokenKind, Tokens};
use std::alloc::Global;

/// The tokens of a text, each with its place, its kind and its text, as `1:1 Keyword "let"`; of a text with a break those before it, and
/// the fault.
pub(crate) fn lexed(alloc: Global, source: &[u8]) -> Result<String> {
    ensure!(source.len() < 4_294_967_295, "a file of 4 GiB");
    match tokens(alloc, FILE, source) {
        Ok(found) => listed(alloc, &found),
        Err(LexStop::Fault { fault, kept }) => broken(alloc, &kept, fault),
        Err(LexStop::Memory) => bail!("out of memory"),
    }
}

/// The tokens before a break, and the fault.
fn broken(alloc: Global, kept: &Tokens, fault: Fault) -> Result<String> {
    let (before, fault) = (listed(alloc, kept)?, told(alloc, fault)?);
    Ok(format!(in alloc; "{before} {fault}")?)
}

/// The tokens, a blank between any two.
fn listed(alloc: Global, tokens: &Tokens) -> Result<String> {
    let mut out = String::new(alloc);
    for i in 0..tokens.len() {
        if let Some(token) = tokens.get(i) {
            if i > 0 {
                out.push(' ')?;
            }
            put_token(&mut out, token)?;
        }
    }
    Ok(out)
}

/// Writes a token; of a number and of a rune also the value, and the suffix where there is one.
fn put_token(out: &mut String, token: &Token) -> Result<()> {
    ensure!(token.place.file == FILE, "a token of another file");
    let (line, column) = (token.place.line, token.place.column);
    let (kind, number) = (token.kind, token.number);
    write!(out, "{line}:{column} {kind:?}")?;
    let text = str::from_utf8(token.text.bytes()).context("a text that is not UTF-8")?;
    if kind != TokenKind::End || !text.is_empty() {
        put_quoted(out, text)?;
    }
    if number != 0 || matches!(kind, TokenKind::Number | TokenKind::RuneLit) {
        write!(out, " {number}")?;
    }
    put_suffix(out, token.suffix)?;
    Ok(())
}
