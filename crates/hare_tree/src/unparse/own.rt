//! A tree's own tokens, from its text, number and suffix.

ghost use Rattle.std.specs.Prelude.{◌≡◌, ◌<◌, ◌+◌, ◌++◌, length, drop, IfOk, OnOk};
ghost use Rattle.hare_tree.specs.Node.{head};
ghost use Rattle.hare_tree.specs.Spell as spec;

use crate::form::{Own, Sign};
use crate::text::{is_path_mark, member_kind};
use crate::token::TokenKind;
use crate::tokens::Tokens;
use crate::tree::Tree;
use crate::unparse::single::{put_full, put_sign, put_word};
use crate::word::Word;
use std::alloc::{AllocError, Global};

/// Puts the names of a path with `::` between them.
fn put_path(out: &mut Tokens, alloc: Global, file: u32, text: &[u8]) -> Result<(), AllocError>
    ensures { OnOk result (out.new ≡ out.old ++ spec.path_tokens file (spec.parts text.now)) }
{
    let mut part = Word::new(alloc);
    let mut taken = false;
    for i in 0..text.len() {
        taken = put_path_byte(out, alloc, file, text, i, &mut part, taken)?;
    }
    put_word(out, alloc, file, TokenKind::Name, part.bytes())
}

/// Takes one byte of a path: it goes on with a part, or is the first or the second colon of a `::`. Says whether the next byte is a second
/// colon.
fn put_path_byte(
    out: &mut Tokens,
    alloc: Global,
    file: u32,
    text: &[u8],
    i: usize,
    part: &mut Word,
    taken: bool,
) -> Result<bool, AllocError>
    requires { i < length text.now }
    ensures { IfOk result (λ next. out.new ++ spec.path_tokens file (spec.parts_from next part.new (drop (i + 1) text.now)) ≡ out.old ++
        spec.path_tokens file (spec.parts_from taken part.old (drop i text.now))) }
{
    if taken {
        return Ok(false);
    }
    if is_path_mark(text, i) {
        put_word(out, alloc, file, TokenKind::Name, part.bytes())?;
        put_sign(out, alloc, file, Sign::PathMark)?;
        *part = Word::new(alloc);
        return Ok(true);
    }
    part.push(text[i])?;
    Ok(false)
}

/// Puts a label.
fn put_label(out: &mut Tokens, alloc: Global, file: u32, text: &[u8]) -> Result<(), AllocError>
    ensures { OnOk result (out.new ≡ out.old ++ spec.label_tokens file text.now) }
{
    if text.is_empty() {
        return Ok(());
    }
    put_sign(out, alloc, file, Sign::Colon)?;
    put_word(out, alloc, file, TokenKind::Name, text)
}

/// Puts the tokens that are made from a tree's text, number and suffix.
pub fn put_own(
    out: &mut Tokens,
    alloc: Global,
    file: u32,
    t: &Tree,
    own: Own,
) -> Result<(), AllocError>
    ensures { OnOk result (out.new ≡ out.old ++ spec.own_tokens file (head t.now) own) }
{
    let text = t.text.bytes();
    match own {
        Own::Nothing => Ok(()),
        Own::Name | Own::PathName => put_word(out, alloc, file, TokenKind::Name, text),
        Own::Path => put_path(out, alloc, file, text),
        Own::Label => put_label(out, alloc, file, text),
        Own::Scalar | Own::Bool => put_word(out, alloc, file, TokenKind::Keyword, text),
        Own::Number => put_full(out, alloc, file, TokenKind::Number, t),
        Own::Rune => put_full(out, alloc, file, TokenKind::RuneLit, t),
        Own::Text => put_word(out, alloc, file, TokenKind::Str, text),
        Own::Operator => put_word(out, alloc, file, TokenKind::Mark, text),
        Own::Member => put_full(out, alloc, file, member_kind(text), t),
    }
}
