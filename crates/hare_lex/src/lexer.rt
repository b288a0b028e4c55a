//! The tokens of a file, or its first break.

ghost use Rattle.std.specs.Prelude.{◌≡◌, ◌+◌, ◌^◌, ◌<◌, ◌≤◌, List, [], length, take, IfOk, IfErr, MatchResult};
ghost use Rattle.std.specs.Str.{IsUtf8};
ghost use Rattle.hare_tree.specs.declared.token.TokenKind.TheVariants.{Str};
ghost use Rattle.hare_tree.specs.declared.place.Fault.{Fault};
ghost use Rattle.hare_tree.specs.declared.token.Token.{Token};
ghost use Rattle.hare_tree.specs.Tokens as spec;
ghost use Rattle.hare_tree.specs.Tokens.{IsTokens, IsFirstBreak, place_at};
ghost use Rattle.hare_lex.specs.Lexing.{text_of, string_text, inner};
ghost use Rattle.hare_lex.specs.Order.{AreInOrder};
ghost use Rattle.hare_lex.specs.Stops.{Stops, Stopped, GivesTokens, GivesFault};

use crate::front::{Found, first_token};
use crate::gap::{advanced, gap_len};
use crate::stop::LexStop;
use crate::string::unescaped;
use hare_tree::{Fault, Place, Suffix, Token, TokenKind, Tokens, Word};
use std::alloc::{AllocError, Global};

/// The tokens of a file of fewer than 2^32 - 1 bytes, the last of them End, or its first break with the tokens before it.
///
/// The faults are E3 (not UTF-8), E4 (a character that begins no token), E5 (a wrong escape, or a rune that is not one character), E6 (an
/// opening quote without its closing one), E7 (a number over 2^127 - 1) and E10 (what the language leaves out of Hare).
///
/// The tokens are all of the file, and each stands before those behind it.
pub fn tokens(alloc: Global, file: u32, src: &[u8]) -> Result<Tokens, LexStop>
    requires { length src.now + 1 < 2 ^ 32 }
    ensures ok { IfOk result (λ ts. IsTokens file src.now ts) }
    ensures order { IfOk result (λ ts. AreInOrder file ts) }
    ensures err { IfErr result (λ e. Stops file src.now e) }
    ensures only_tokens { (ts : List Token) → IsTokens file src.now ts → GivesTokens ts result }
    ensures only_break { (fault : Fault) (kept : List Token) → IsFirstBreak file src.now fault kept → GivesFault fault kept result }
{
    found(alloc, file, src)
}

// The tokens of a file, or its first break.
fn found(alloc: Global, file: u32, src: &[u8]) -> Result<Tokens, LexStop>
    requires { length src.now + 1 < 2 ^ 32 }
    ensures ok { IfOk result (λ ts. IsTokens file src.now ts) }
    ensures err { IfErr result (λ e. Stops file src.now e) }
{
    match std::str::from_utf8(src) {
        Ok(_) => tokens_of(alloc, file, src),
        Err(e) => Err(not_utf8(alloc, file, src, e.valid_up_to())),
    }
}

// The stop at the first byte that is no part of a whole character.
fn not_utf8(alloc: Global, file: u32, src: &[u8], valid: usize) -> LexStop
    requires short { length src.now + 1 < 2 ^ 32 }
    requires within { valid ≤ length src.now }
    ensures { Stopped [] 3 (place_at file (take valid src.now)) result }
{
    let place = advanced(start_of(file), src.split_at(valid).0);
    broken(alloc, Tokens::new(alloc), 3, place)
}

// The first place of a file.
fn start_of(file: u32) -> Place
    ensures { result ≡ place_at file [] }
{
    Place {
        file,
        line: 1,
        column: 1,
    }
}

// The tokens of a file that is UTF-8.
fn tokens_of(alloc: Global, file: u32, src: &[u8]) -> Result<Tokens, LexStop>
    requires short { length src.now + 1 < 2 ^ 32 }
    requires utf8 { IsUtf8 src.now }
    ensures found { IfOk result (λ ts. IsTokens file src.now ts) }
    ensures cause { IfErr result (λ e. Stops file src.now e) }
{
    let mut tokens = Tokens::new(alloc);
    let mut place = start_of(file);
    let mut behind_path = false;
    let mut rest = src;
    loop {
        let (gap, text) = rest.split_at(gap_len(rest));
        let at = advanced(place, gap);
        if text.is_empty() {
            tokens.push(end_at(alloc, at))?;
            return Ok(tokens);
        }
        match first_token(behind_path, text) {
            Found::Fault(number, offset) => {
                let fault = advanced(at, text.split_at(offset).0);
                return Err(broken(alloc, tokens, number, fault));
            }
            Found::Token(kind, len, number, suffix) => {
                let (spelling, behind) = text.split_at(len);
                let token = token_of(alloc, kind, at, spelling, number, suffix)?;
                tokens.push(token)?;
                behind_path = is_path_mark(kind, spelling);
                place = advanced(at, spelling);
                rest = behind;
            }
        }
    }
}

// The token End.
fn end_at(alloc: Global, place: Place) -> Token
    ensures { result ≡ spec.end_at place }
{
    Token {
        kind: TokenKind::End,
        place,
        text: Word::new(alloc),
        number: 0,
        suffix: Suffix::None,
    }
}

// The fault, with the kept tokens and End behind them.
fn broken(alloc: Global, mut kept: Tokens, number: u8, place: Place) -> LexStop
    ensures { Stopped kept number place result }
{
    match kept.push(end_at(alloc, place)) {
        Ok(()) => LexStop::Fault {
            fault: Fault { number, place },
            kept,
        },
        Err(_) => LexStop::Memory,
    }
}

/// Whether the token of this kind and spelling is the mark `::`.
pub fn is_path_mark(kind: TokenKind, spelling: &[u8]) -> bool
    ensures { result ≡ spec.is_path_mark kind spelling.now }
{
    match kind {
        TokenKind::Mark => spelling == b"::".as_slice(),
        _ => false,
    }
}

// A token.
fn token_of(
    alloc: Global,
    kind: TokenKind,
    place: Place,
    spelling: &[u8],
    number: u128,
    suffix: Suffix,
) -> Result<Token, AllocError>
    requires { kind ≡ Str → 2 ≤ length spelling.now }
    ensures { IfOk result (λ t. t ≡ record
        { kind = kind; place = place; text = text_of kind spelling.now; number = number; suffix = suffix }) }
{
    Ok(Token {
        kind,
        place,
        text: text_of(alloc, kind, spelling)?,
        number,
        suffix,
    })
}

// The text of a token: its spelling, and of a string what that decodes to.
fn text_of(alloc: Global, kind: TokenKind, spelling: &[u8]) -> Result<Word, AllocError>
    requires { kind ≡ Str → 2 ≤ length spelling.now }
    ensures { IfOk result (λ w. w ≡ text_of kind spelling.now) }
{
    match kind {
        TokenKind::Str => string_text(alloc, spelling),
        _ => Word::copy(alloc, spelling),
    }
}

// What a string decodes to.
fn string_text(alloc: Global, spelling: &[u8]) -> Result<Word, AllocError>
    requires { 2 ≤ length spelling.now }
    ensures { IfOk result (λ w. w ≡ string_text spelling.now) }
{
    let content = inner(spelling);
    if spelling[0] == 34 {
        unescaped(alloc, content)
    } else {
        Word::copy(alloc, content)
    }
}

// What stands between the quotes.
fn inner(spelling: &[u8]) -> &[u8]
    requires { 2 ≤ length spelling.now }
    ensures { result.now ≡ inner spelling.now }
{
    spelling.split_at(1).1.split_at(spelling.len() - 2).0
}
