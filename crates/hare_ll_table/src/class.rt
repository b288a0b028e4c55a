//! The class of a token.

ghost use Rattle.std.specs.Prelude.{◌≡◌, ◌^◌, nat_lt, bytes_eq, slice_index};
ghost use Rattle.std.specs.Char.{is_ascii_digit};
ghost use Rattle.hare_tree.specs.Shape as shape;
ghost use Rattle.hare_tree.specs.Words.{is_listed};
ghost use Rattle.hare_automaton.specs.Classes as classes;
ghost use Rattle.hare_ll_table.specs.Seen.{has_room, sign_or_else};

use crate::signs::{keywords_like, mark_of_byte, marks_like, scalars_like};
use hare_automaton::Class;
use hare_tree::{
    Kind, Own, Sign, Suffix, Token, TokenKind, is_listed, is_name, is_operator_of, operator_level,
    sign_word,
};

const BOOLS: [&[u8]; 2] = [b"true", b"false"];

/// The class of a token: all that the grammar sees of it. A binary operator's level is below 255.
///
/// It takes a bounded number of comparisons of words, and time linear in a name.
pub fn class_of(token: &Token) -> Class
    ensures value { result ≡ classes.class_of token.now }
    ensures within { has_room result }
{
    let text = token.text.bytes();
    match token.kind {
        TokenKind::Name => when(has_text_alone(token), name_class(text)),
        TokenKind::Keyword => when(has_text_alone(token), keyword_class(text)),
        TokenKind::Number => when(is_number(token), Class::Number),
        TokenKind::Str => when(has_text_alone(token), Class::Text),
        TokenKind::RuneLit => when(is_rune(token), Class::Rune),
        TokenKind::Mark => when(has_text_alone(token), mark_class(text)),
        TokenKind::End => Class::Junk,
    }
}

/// The class where the condition holds, and else Junk.
fn when(condition: bool, class: Class) -> Class
    requires { has_room class }
    ensures value { result ≡ classes.when condition class }
    ensures within { has_room result }
{
    if condition { class } else { Class::Junk }
}

// ---- words and marks

/// The class of a name.
fn name_class(text: &[u8]) -> Class
    ensures value { result ≡ classes.name_class text.now }
    ensures within { has_room result }
{
    if is_name(false, text) {
        Class::Name
    } else if is_name(true, text) {
        Class::PathWord
    } else {
        Class::Junk
    }
}

/// The class of a keyword.
fn keyword_class(text: &[u8]) -> Class
    ensures value { result ≡ classes.sign_or (classes.word_class text.now) classes.keyword_signs text.now }
    ensures within { has_room result }
{
    match keyword_sign(text) {
        Some(sign) => Class::Sign(sign),
        None => word_class(text),
    }
}

/// The keyword with this spelling that forms have; none where there is none.
fn keyword_sign(text: &[u8]) -> Option<Sign>
    ensures { (other : Class) → sign_or_else result other ≡ classes.sign_or other classes.keyword_signs text.now }
{
    match text {
        [first, ..] => sign_in(keywords_like(*first), text),
        [] => None,
    }
}

/// The class of a mark.
fn mark_class(text: &[u8]) -> Class
    ensures value { result ≡ classes.sign_or (classes.operator_class text.now) classes.mark_signs text.now }
    ensures within { has_room result }
{
    match mark_sign(text) {
        Some(sign) => Class::Sign(sign),
        None => operator_class(text),
    }
}

/// The mark with this spelling that forms have; none where there is none.
fn mark_sign(text: &[u8]) -> Option<Sign>
    ensures { (other : Class) → sign_or_else result other ≡ classes.sign_or other classes.mark_signs text.now }
{
    match text {
        [only] => mark_of_byte(*only),
        [first, ..] => sign_in(marks_like(*first), text),
        [] => None,
    }
}

/// The sign of the list with this spelling; none where there is none.
fn sign_in(signs: &[Sign], text: &[u8]) -> Option<Sign>
    ensures { (other : Class) → sign_or_else result other ≡ classes.sign_or other signs.now text.now }
{
    for sign in signs {
        if is_same(sign_word(*sign), text) {
            return Some(*sign);
        }
    }
    None
}

/// Whether two words are the same.
fn is_same(a: &[u8], b: &[u8]) -> bool
    ensures { result ≡ bytes_eq a.now b.now }
{
    a.len() == b.len() && a == b
}

/// The class of a keyword that is no sign.
fn word_class(text: &[u8]) -> Class
    ensures value { result ≡ classes.word_class text.now }
    ensures within { has_room result }
{
    if is_scalar(text) {
        Class::Scalar
    } else if is_listed(&BOOLS, text) {
        Class::Bool
    } else {
        Class::Junk
    }
}

/// Whether a keyword is a type.
fn is_scalar(text: &[u8]) -> bool
    ensures { result ≡ is_listed shape.scalars text.now }
{
    match text {
        [first, ..] => is_listed(scalars_like(*first), text),
        [] => false,
    }
}

/// The class of a mark that is no sign.
fn operator_class(text: &[u8]) -> Class
    ensures value { result ≡ classes.operator_class text.now }
    ensures within { has_room result }
{
    if is_binary(text) {
        Class::Binary(operator_level(text))
    } else if is_operator_of(Kind::OpAssign, text) {
        Class::OpAssign
    } else {
        Class::Junk
    }
}

/// Whether a mark is a binary operator.
fn is_binary(text: &[u8]) -> bool
    ensures { result ≡ classes.is_binary text.now }
{
    is_operator_of(Kind::Arith, text)
        || is_operator_of(Kind::Shift, text)
        || is_operator_of(Kind::Less, text)
        || is_operator_of(Kind::Equal, text)
        || is_operator_of(Kind::Logic, text)
}

// ---- what a token has besides its text

/// Whether a token has neither a number nor a suffix.
fn has_text_alone(token: &Token) -> bool
    ensures { result ≡ shape.has_text_alone (classes.head_of token.now) }
{
    token.number == 0 && has_no_suffix(token.suffix)
}

/// Whether a suffix says nothing.
pub fn has_no_suffix(suffix: Suffix) -> bool
    ensures { result ≡ shape.has_no_suffix suffix }
{
    matches!(suffix, Suffix::None)
}

/// Whether a token has a number below 2^127, whose spelling begins with a digit.
fn is_number(token: &Token) -> bool
    ensures { result ≡ shape.is_number (classes.head_of token.now) }
{
    begins_with_digit(token.text.bytes()) && is_small(token.number)
}

/// Whether a text begins with a decimal digit.
fn begins_with_digit(text: &[u8]) -> bool
    ensures { result ≡ is_ascii_digit (slice_index text.now 0) }
{
    match text {
        [first, ..] => first.is_ascii_digit(),
        [] => false,
    }
}

/// Whether a number is below 2^127.
fn is_small(number: u128) -> bool
    ensures { result ≡ nat_lt number (2 ^ 127) }
{
    number < 0x8000_0000_0000_0000_0000_0000_0000_0000
}

/// Whether a token has a Unicode scalar value and no suffix.
fn is_rune(token: &Token) -> bool
    ensures { result ≡ shape.is_own Own.Rune (classes.head_of token.now) }
{
    is_scalar_value(token.number) && has_no_suffix(token.suffix)
}

/// Whether a number is a Unicode scalar value.
fn is_scalar_value(number: u128) -> bool
    ensures { result ≡ shape.is_scalar_value number }
{
    number < 0xd800 || (0xe000 <= number && number < 0x110000)
}
