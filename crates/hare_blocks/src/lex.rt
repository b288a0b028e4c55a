//! The first token of a text.

ghost use Rattle.std.specs.Prelude.{◌≡◌, ◌≤◌, ◌==◌, length, true, IfOk, option_map, bytes_eq};
ghost use Rattle.std.specs.List.{list_all};
ghost use Rattle.hare_tree.specs.Words as words;
ghost use Rattle.hare_blocks.specs.Tokens.{goes_on};
ghost use Rattle.hare_blocks.specs.Lexing as lexing;
ghost use Rattle.hare_blocks.specs.Found.{found_token};

use crate::scan::{is_letter, is_word_byte, number_at, text_len, word_len};
use crate::token::Token;
use hare_tree::{Word, is_keyword, is_left_out};
use std::alloc::{AllocError, Global};

/// A token, before the bytes that it holds are copied.
pub enum Found<'a> {
    /// A token that holds no bytes.
    Whole(Token),
    Name(&'a [u8]),
    Text(&'a [u8]),
}

/// The token, with bytes of its own.
pub fn token_of(alloc: Global, found: Found) -> Result<Token, AllocError>
    ensures { IfOk result (λ t. t ≡ found_token found.entry) }
{
    match found {
        Found::Whole(token) => Ok(token),
        Found::Name(word) => {
            let name = Word::copy(alloc, word)?;
            Ok(Token::Name(name))
        }
        Found::Text(bytes) => {
            let text = Word::copy(alloc, bytes)?;
            Ok(Token::Text(text))
        }
    }
}

/// The token at the front of a text, and what stands behind it. None where no token of the class stands there.
#[tactic(auto, unfolding(crate::specs::Lexing::token_at))]
pub fn token_at(s: &[u8]) -> Option<(Found, &[u8])>
    ensures { option_map (λ r. (found_token r.0, r.1.now)) result ≡ lexing.token_at s.now }
{
    let (first, rest) = s.split_first()?;
    if first.is_ascii_digit() {
        number_token_at(s)
    } else if is_letter(*first) {
        word_token_at(s)
    } else if *first == b'"' {
        text_token_at(rest)
    } else {
        mark_at(*first, rest)
    }
}

#[tactic(auto, unfolding(crate::specs::Lexing::number_token_at))]
fn number_token_at(s: &[u8]) -> Option<(Found, &[u8])>
    ensures { option_map (λ r. (found_token r.0, r.1.now)) result ≡ lexing.number_token_at s.now }
{
    let (number, behind) = number_at(s)?;
    let (suffix, rest) = behind.split_first()?;
    if *suffix == b'z' {
        Some((Found::Whole(Token::Number(number)), rest))
    } else {
        None
    }
}

#[tactic(auto, unfolding(crate::specs::Lexing::word_token_at))]
fn word_token_at(s: &[u8]) -> Option<(Found, &[u8])>
    ensures { option_map (λ r. (found_token r.0, r.1.now)) result ≡ lexing.word_token_at s.now }
{
    let (word, rest) = s.split_at(word_len(s));
    let found = word_token(word)?;
    Some((found, rest))
}

// The keyword or the name of a word. None where it is a word of Hare that the class has not.
#[tactic(auto, unfolding(crate::specs::Lexing::word_token))]
fn word_token(word: &[u8]) -> Option<Found>
    ensures { option_map found_token result ≡ lexing.word_token word.now }
{
    match keyword(word) {
        Some(token) => Some(Found::Whole(token)),
        None => name(word),
    }
}

#[tactic(auto, unfolding(crate::specs::Lexing::keyword))]
fn keyword(word: &[u8]) -> Option<Token>
    ensures { result ≡ lexing.keyword word.now }
{
    if is_same(word, b"use") {
        Some(Token::Use)
    } else if is_same(word, b"export") {
        Some(Token::Export)
    } else if is_same(word, b"fn") {
        Some(Token::Function)
    } else if is_same(word, b"void") {
        Some(Token::Void)
    } else if is_same(word, b"u8") {
        Some(Token::U8)
    } else if is_same(word, b"let") {
        Some(Token::Let)
    } else if is_same(word, b"if") {
        Some(Token::If)
    } else if is_same(word, b"else") {
        Some(Token::Else)
    } else if is_same(word, b"for") {
        Some(Token::For)
    } else if is_same(word, b"true") {
        Some(Token::True)
    } else {
        None
    }
}

fn is_same(a: &[u8], b: &[u8]) -> bool
    ensures { result ≡ bytes_eq a.now b.now }
{
    a == b
}

#[tactic(auto, unfolding(crate::specs::Lexing::name))]
fn name(word: &[u8]) -> Option<Found>
    ensures { option_map found_token result ≡ lexing.name word.now }
{
    if is_word(word) && !is_keyword(word) && !is_left_out(false, word) {
        Some(Found::Name(word))
    } else {
        None
    }
}

fn is_word(s: &[u8]) -> bool
    ensures { result ≡ words.is_word s.now }
{
    match s {
        [] => false,
        [first, rest @ ..] => is_letter(*first) && are_word_bytes(rest),
    }
}

fn are_word_bytes(s: &[u8]) -> bool
    ensures { result ≡ list_all words.is_word_byte s.now }
{
    s.iter().all(|c| is_word_byte(*c))
}

#[tactic(auto, unfolding(crate::specs::Lexing::text_token_at))]
fn text_token_at(s: &[u8]) -> Option<(Found, &[u8])>
    ensures { option_map (λ r. (found_token r.0, r.1.now)) result ≡ lexing.text_token_at s.now }
{
    let (text, behind) = s.split_at(text_len(s));
    let (quote, rest) = behind.split_first()?;
    if *quote == b'"' {
        Some((Found::Text(text), rest))
    } else {
        None
    }
}

// The mark that begins with this byte, in front of the rest.
#[tactic(auto, unfolding(crate::specs::Lexing::mark_at))]
fn mark_at(first: u8, rest: &[u8]) -> Option<(Found, &[u8])>
    ensures { option_map (λ r. (found_token r.0, r.1.now)) result ≡ lexing.mark_at first rest.now }
{
    let Some((next, behind)) = rest.split_first() else {
        return short_mark_at(first, rest);
    };
    match long_mark(first, *next) {
        Some(token) => Some((Found::Whole(token), behind)),
        None => short_mark_at(first, rest),
    }
}

#[tactic(auto, unfolding(crate::specs::Lexing::short_mark_at))]
fn short_mark_at(first: u8, rest: &[u8]) -> Option<(Found, &[u8])>
    ensures { option_map (λ r. (found_token r.0, r.1.now)) result ≡ lexing.short_mark_at first rest.now }
{
    let token = mark(first)?;
    let next = rest.first().copied().unwrap_or(0);
    if goes_on(&token, next) {
        None
    } else {
        Some((Found::Whole(token), rest))
    }
}

// The mark of two bytes.
#[tactic(auto, unfolding(crate::specs::Lexing::long_mark))]
fn long_mark(first: u8, next: u8) -> Option<Token>
    ensures { result ≡ lexing.long_mark first next }
{
    match (first, next) {
        (b':', b':') => Some(Token::PathSeparator),
        (b'=', b'=') => Some(Token::Equal),
        (b'!', b'=') => Some(Token::Differ),
        (b'<', b'=') => Some(Token::LessEqual),
        (b'>', b'=') => Some(Token::GreaterEqual),
        _ => None,
    }
}

// The mark of one byte.
#[tactic(auto, unfolding(crate::specs::Lexing::mark))]
fn mark(c: u8) -> Option<Token>
    ensures { result ≡ lexing.mark c }
{
    match c {
        b';' => Some(Token::Semicolon),
        b'(' => Some(Token::OpenParen),
        b')' => Some(Token::CloseParen),
        b'{' => Some(Token::OpenBrace),
        b'}' => Some(Token::CloseBrace),
        b'=' => Some(Token::Assign),
        b':' => Some(Token::Colon),
        b'+' => Some(Token::Plus),
        b'-' => Some(Token::Minus),
        b'*' => Some(Token::Star),
        b'<' => Some(Token::Less),
        b'>' => Some(Token::Greater),
        _ => None,
    }
}

// Whether some longer token begins with the token and this byte.
fn goes_on(token: &Token, next: u8) -> bool
    ensures { result ≡ goes_on token.now next }
{
    match token {
        Token::Assign | Token::Greater => next == b'=' || next == b'>',
        Token::Less => next == b'=' || next == b'<',
        Token::Colon => next == b':',
        Token::Plus | Token::Minus | Token::Star => next == b'=',
        Token::Semicolon
        | Token::OpenParen
        | Token::CloseParen
        | Token::OpenBrace
        | Token::CloseBrace
        | Token::PathSeparator
        | Token::LessEqual
        | Token::GreaterEqual
        | Token::Equal
        | Token::Differ
        | Token::Number(_)
        | Token::Text(_) => false,
        Token::Use
        | Token::Export
        | Token::Function
        | Token::Void
        | Token::U8
        | Token::Let
        | Token::If
        | Token::Else
        | Token::For
        | Token::True
        | Token::Name(_) => is_word_byte(next),
    }
}
