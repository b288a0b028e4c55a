//! Closing quotes, escapes and characters.

ghost use Rattle.std.specs.Prelude.{◌≡◌, ◌≤◌, ◌<◌, ◌+◌, length, false, true, option_map, IfSome, slice_get};
ghost use Rattle.std.specs.Str.{chars};
ghost use Rattle.hare_tree.specs.Spelling as spelling;
ghost use Rattle.hare_tree.specs.Tokens as tokens;
ghost use Rattle.hare_lex.specs.Lexing.{closing, takes, escape, hex_escape, scalar_of, one, is_hex_of, character, only_char};

use crate::bytes::{byte, front};
use crate::number::{is_digit, value_of};

// The place of the quote that closes a literal, in the text behind its opening quote.
pub fn closing(quote: u8, s: &[u8]) -> Option<usize>
    ensures value { result ≡ closing quote false 0 s.now }
    ensures within { IfSome result (λ n. n < length s.now) }
{
    let mut taken = false;
    for (i, c) in s.iter().enumerate() {
        if !taken && *c == quote {
            return Some(i);
        }
        taken = takes(quote, taken, *c);
    }
    None
}

// Whether the byte takes the one behind it, where itself is taken or not.
fn takes(quote: u8, taken: bool, c: u8) -> bool
    ensures { result ≡ takes quote taken c }
{
    !taken && c == 92 && quote != 96
}

// What a backslash before this byte stands for.
fn escaped(c: u8) -> Option<char>
    ensures { result ≡ spelling.escaped c }
{
    match c {
        b'0' => Some('\0'),
        b'a' => Some('\x07'),
        b'b' => Some('\x08'),
        b'f' => Some('\x0c'),
        b'n' => Some('\n'),
        b'r' => Some('\r'),
        b't' => Some('\t'),
        b'v' => Some('\x0b'),
        b'\\' => Some('\\'),
        b'\'' => Some('\''),
        b'"' => Some('"'),
        _ => None,
    }
}

// How many hexadecimal digits follow a backslash and this byte.
fn hex_len(c: u8) -> Option<usize>
    ensures value { result ≡ spelling.hex_len c }
    ensures within { IfSome result (λ n. n ≤ 8) }
{
    match c {
        b'x' => Some(2),
        b'u' => Some(4),
        b'U' => Some(8),
        _ => None,
    }
}

// Whether all bytes are hexadecimal digits.
fn is_hex(s: &[u8]) -> bool
    ensures { result ≡ spelling.is_hex s.now }
{
    s.iter().all(|c| is_digit(*c, 16))
}

// The character of an escape with hexadecimal digits, and how many bytes of it stand behind the backslash.
fn hex_escape(c: u8, s: &[u8]) -> Option<(char, usize)>
    ensures value { result ≡ hex_escape c s.now }
    ensures within { IfSome result (λ r. r.1 ≤ length s.now + 1) }
{
    let count = hex_len(c)?;
    let digits = front(s, count);
    if digits.len() != count || !is_hex(digits) {
        return None;
    }
    let character = scalar_of(value_of(digits, 16)?)?;
    if c == 120 && character as u32 >= 128 {
        return None;
    }
    Some((character, 1 + count))
}

// The character with this value.
fn scalar_of(value: u128) -> Option<char>
    ensures { result ≡ scalar_of value }
{
    if value < 0x11_0000 {
        char::from_u32(value as u32)
    } else {
        None
    }
}

// The escape whose backslash stands before this text: its character, and how many bytes of it stand behind the backslash.
pub fn escape(s: &[u8]) -> Option<(char, usize)>
    ensures value { result ≡ escape s.now }
    ensures within { IfSome result (λ r. r.1 ≤ length s.now) }
{
    let (first, rest) = s.split_first()?;
    match escaped(*first) {
        Some(character) => Some((character, 1)),
        None => hex_escape(*first, rest),
    }
}

// The character, where the bytes are one whole character.
pub fn character(s: &[u8]) -> Option<char>
    ensures { result ≡ character s.now }
{
    match std::str::from_utf8(s) {
        Ok(text) => only_char(text),
        Err(_) => None,
    }
}

// The character of a text of one.
fn only_char(text: &str) -> Option<char>
    ensures { result ≡ only_char text.now }
{
    if char_count(text) == 1 {
        first_char(text)
    } else {
        None
    }
}

// How many characters there are.
fn char_count(text: &str) -> usize
    ensures { result ≡ length (chars text.now) }
{
    text.chars().count()
}

// The first character.
fn first_char(text: &str) -> Option<char>
    ensures { result ≡ slice_get (chars text.now) 0 }
{
    text.chars().next()
}

// What stands between the quotes of a rune, where that is one character or escape.
pub fn one(content: &[u8]) -> Option<char>
    ensures { result ≡ one content.now }
{
    if byte(content, 0) != 92 {
        return character(content);
    }
    let (character, len) = escape(content.split_at(1).1)?;
    if len + 1 == content.len() {
        Some(character)
    } else {
        None
    }
}

// Whether the bytes are one backslash with what it takes.
pub fn is_one_escape(content: &[u8]) -> bool
    ensures { result ≡ tokens.is_one_escape content.now }
{
    let Some((first, rest)) = content.split_first() else {
        return false;
    };
    *first == 92
        && (character(rest).is_some()
            || is_hex_of(120, 3, rest)
            || is_hex_of(117, 5, rest)
            || is_hex_of(85, 9, rest))
}

// Whether the text is this byte and hexadecimal digits, so many bytes together.
fn is_hex_of(first: u8, len: usize, s: &[u8]) -> bool
    requires { 1 ≤ len }
    ensures { result ≡ is_hex_of first len s.now }
{
    byte(s, 0) == first && s.len() == len && is_hex(s.split_at(1).1)
}
