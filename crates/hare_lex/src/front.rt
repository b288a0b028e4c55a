//! The token at the front of a text that begins with no blank and no comment, or the fault there.

ghost use Rattle.std.specs.Prelude.{◌≡◌, ◌≤◌, ◌<◌, length, false, true, slice_index};
ghost use Rattle.std.specs.Char.{is_ascii_digit};
ghost use Rattle.hare_lex.specs.Fronts.{Sound, Within};
ghost use Rattle.hare_lex.specs.Lexing as spec;
ghost use Rattle.hare_tree.specs.Words as words;

use crate::bytes::{byte, digit_len, word_len};
use crate::literal::{closing, is_one_escape, one};
use crate::number::number_at;
use crate::string::bad_escape;
use crate::table::mark_len;
use hare_tree::{Suffix, TokenKind, is_keyword, is_left_out, is_letter};

/// What stands at the front.
#[derive(Clone, Copy)]
pub enum Found {
    /// A token of this kind, of so many bytes, with this number and suffix.
    Token(TokenKind, usize, u128, Suffix),
    /// The fault of this number, so many bytes behind the front.
    Fault(u8, usize),
}

// A token without number and suffix.
fn plain(kind: TokenKind, len: usize) -> Found
    ensures { result ≡ spec.plain kind len }
{
    Found::Token(kind, len, 0, Suffix::None)
}

/// The token that stands at the front of a text, or the fault there. The text is not empty, and begins with neither a blank nor a comment;
/// `behind_path` says whether the token before it is `::`.
///
/// The faults are those of `tokens`, but for E3. The time is linear in the bytes of the token, or in those of the text at a fault.
pub fn first_token(behind_path: bool, s: &[u8]) -> Found
    requires { 0 < length s.now }
    ensures stands { Sound behind_path s.now result }
    ensures within { Within s.now result }
{
    at_front(behind_path, s)
}

// What stands at the front of a text that is not empty.
#[tactic(auto, unfolding(crate::specs::Lexing::at_front))]
fn at_front(behind_path: bool, s: &[u8]) -> Found
    requires { 0 < length s.now }
    ensures value { result ≡ spec.at_front behind_path s.now }
    ensures within { Within s.now result }
{
    let first = s[0];
    if is_letter(first) {
        word_front(behind_path, s)
    } else if first.is_ascii_digit() {
        number_front(s)
    } else if first == 34 {
        string_front(s.split_at(1).1)
    } else if first == 96 {
        raw_front(s.split_at(1).1)
    } else if first == 39 {
        rune_front(s.split_at(1).1)
    } else if first == 64 {
        Found::Fault(10, 0)
    } else {
        mark_front(s)
    }
}

// A word at the front.
fn word_front(behind_path: bool, s: &[u8]) -> Found
    requires { words.is_letter (slice_index s.now 0) ≡ true }
    ensures value { result ≡ spec.word_front behind_path s.now }
    ensures within { Within s.now result }
{
    let len = word_len(s);
    let word = s.split_at(len).0;
    if is_left_out(behind_path, word) {
        Found::Fault(10, 0)
    } else if is_keyword(word) {
        plain(TokenKind::Keyword, len)
    } else {
        plain(TokenKind::Name, len)
    }
}

// A number at the front.
fn number_front(s: &[u8]) -> Found
    requires { is_ascii_digit (slice_index s.now 0) ≡ true }
    ensures value { result ≡ spec.number_front s.now }
    ensures within { Within s.now result }
{
    let number = number_at(s);
    match number.value {
        None => Found::Fault(7, 0),
        Some(value) => {
            if begins_fraction(s) {
                Found::Fault(10, 0)
            } else {
                Found::Token(TokenKind::Number, number.len, value, number.suffix)
            }
        }
    }
}

// Whether decimal digits stand at the front, and then a fraction or an exponent.
fn begins_fraction(s: &[u8]) -> bool
    ensures { result ≡ words.begins_fraction s.now }
{
    byte(s, 0).is_ascii_digit() && goes_on_as_fraction(s.split_at(digit_len(s)).1)
}

// Whether a fraction or an exponent comes next.
fn goes_on_as_fraction(s: &[u8]) -> bool
    ensures { result ≡ words.goes_on_as_fraction s.now }
{
    let first = byte(s, 0);
    let second = byte(s, 1);
    (first == 46 && second.is_ascii_digit())
        || ((first == 101 || first == 69)
            && (second.is_ascii_digit()
                || ((second == 43 || second == 45) && byte(s, 2).is_ascii_digit())))
}

// A string at the front, from behind its opening quote on.
fn string_front(behind: &[u8]) -> Found
    ensures value { result ≡ spec.string_front behind.now }
    ensures within { spec.Behind behind.now result }
{
    let Some(len) = closing(34, behind) else {
        return Found::Fault(6, 0);
    };
    match bad_escape(behind.split_at(len).0) {
        Some(left) => Found::Fault(5, 1 + (len - left)),
        None => plain(TokenKind::Str, len + 2),
    }
}

// A string between backticks at the front, from behind its opening backtick on.
fn raw_front(behind: &[u8]) -> Found
    ensures value { result ≡ spec.raw_front behind.now }
    ensures within { spec.Behind behind.now result }
{
    match closing(96, behind) {
        None => Found::Fault(6, 0),
        Some(len) => plain(TokenKind::Str, len + 2),
    }
}

// A rune at the front, from behind its opening quote on.
fn rune_front(behind: &[u8]) -> Found
    ensures value { result ≡ spec.rune_front behind.now }
    ensures within { spec.Behind behind.now result }
{
    let Some(len) = closing(39, behind) else {
        return Found::Fault(6, 0);
    };
    let content = behind.split_at(len).0;
    match one(content) {
        Some(character) => Found::Token(
            TokenKind::RuneLit,
            len + 2,
            u128::from(character as u32),
            Suffix::None,
        ),
        None => Found::Fault(5, if is_one_escape(content) { 1 } else { 0 }),
    }
}

// A mark at the front.
fn mark_front(s: &[u8]) -> Found
    ensures value { result ≡ spec.mark_front s.now }
    ensures within { Within s.now result }
{
    let len = mark_len(s);
    if len == 0 {
        Found::Fault(4, 0)
    } else {
        plain(TokenKind::Mark, len)
    }
}
