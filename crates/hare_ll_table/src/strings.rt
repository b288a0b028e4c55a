//! Strings side by side, which the grammar sees as one token.

ghost use Rattle.std.specs.Prelude.{◌≡◌, ◌+◌, ◌<◌, Some, true, length, slice_get, IfOk};
ghost use Rattle.hare_tree.specs.Grammar.{is_proper_string, string_at};
ghost use Rattle.hare_ll_table.specs.Joined as spec;

use crate::class::has_no_suffix;
use hare_tree::{Place, Suffix, Token, TokenKind, Tokens, Word};
use std::alloc::{AllocError, Global};

/// Strings side by side as one token.
#[derive(Drop)]
pub struct Joined {
    /// The token, which stands at the first of the strings.
    pub token: Token,
    /// The place in the list of what stands behind them.
    pub next: usize,
}

/// Whether a token is a string with nothing beside its text, neither a suffix nor a number, as all are that the lexer gives. A tree has no
/// other.
pub fn is_proper_string(token: &Token) -> bool
    ensures { result ≡ is_proper_string token.now }
{
    matches!(token.kind, TokenKind::Str) && has_no_suffix(token.suffix) && token.number == 0
}

/// Joins the string at a place of the list with the strings behind it, up to the next token that is no string which a tree can have. The
/// token at the place is `first`, and is a string which a tree can have. An error is want of memory.
pub fn strings_at(
    alloc: Global,
    tokens: &Tokens,
    at: usize,
    first: &Token,
) -> Result<Joined, AllocError>
    requires stands { slice_get tokens.now at ≡ Some first.now }
    requires proper { is_proper_string first.now ≡ true }
    ensures { IfOk result (λ joined. spec.BeginsWith tokens.now at joined.token joined.next) }
{
    let mut text = Word::copy(alloc, first.text.bytes())?;
    let mut next = place_behind(tokens, at);
    while let Some(token) = tokens.get(next) {
        if !is_proper_string(token) {
            return Ok(as_one(first.place, text, next));
        }
        text.extend(token.text.bytes())?;
        next = place_behind(tokens, next);
    }
    Ok(as_one(first.place, text, next))
}

/// A string at a place of the source, in front of a place of the list.
fn as_one(place: Place, text: Word, next: usize) -> Joined
    ensures token { result.token ≡ string_at place text }
    ensures next { result.next ≡ next }
{
    let token = Token {
        kind: TokenKind::Str,
        place,
        text,
        number: 0,
        suffix: Suffix::None,
    };
    Joined { token, next }
}

/// The place in the list behind that of a token, at most the list's length. `at` is the place of a token of the list.
pub fn place_behind(tokens: &Tokens, at: usize) -> usize
    requires { at < length tokens.now }
    ensures { result ≡ at + 1 }
{
    let end = tokens.len();
    if at < end { at + 1 } else { end }
}
