//! Numbers.

ghost use Rattle.std.specs.Prelude.{◌≡◌, ◌≤◌, ◌<◌, ◌*◌, ◌^◌, Some, None, length, if◌then◌else◌, nat_lt, IfSome, ◌+◌};
ghost use Rattle.std.specs.List.{prefix_len, list_all};
ghost use Rattle.std.specs.Char.{is_digit, digit_value};
ghost use Rattle.std.specs.Str.Parse.{digits_value};
ghost use Rattle.hare_lex.specs.Lexing.{radix_of, mark_len_of, number_at, number_in, value_of};
ghost use Rattle.hare_tree.specs.Words as words;

use crate::bytes::{byte, digit_len};
use crate::table::{suffix_len, suffix_named};
use hare_tree::Suffix;

/// A number at the front of a text.
#[derive(Clone, Copy)]
pub struct Number {
    /// How many bytes it has, with its suffix.
    pub len: usize,
    /// Its value, where that is below 2^127.
    pub value: Option<u128>,
    /// Its suffix.
    pub suffix: Suffix,
}

// The value of a digit or letter, and 36 for any other byte.
pub fn digit_value(c: u8) -> u8
    ensures value { result ≡ digit_value c }
    ensures within { result ≤ 36 }
{
    if c < 48 {
        36
    } else if c < 58 {
        c - 48
    } else if c < 65 {
        36
    } else if c < 91 {
        c - 55
    } else if c < 97 {
        36
    } else if c < 123 {
        c - 87
    } else {
        36
    }
}

// Whether the byte is a digit of that radix.
pub fn is_digit(c: u8, radix: u8) -> bool
    ensures { result ≡ is_digit c radix }
{
    digit_value(c) < radix
}

// How many digits of that radix stand at the front.
pub fn digits_len(s: &[u8], radix: u8) -> usize
    ensures value { result ≡ prefix_len (λ c. is_digit c radix) s.now }
    ensures within { result ≤ length s.now }
{
    s.iter().take_while(|c| is_digit(**c, radix)).count()
}

// The radix of the number at the front: that of its mark, where a digit of the base stands behind it, and else 10.
pub fn radix_of(s: &[u8]) -> u8
    ensures value { result ≡ radix_of s.now }
    ensures least { 2 ≤ result }
    ensures most { result ≤ 16 }
    ensures room { mark_len_of result ≤ length s.now }
{
    let mark = byte(s, 1);
    let digit = byte(s, 2);
    if byte(s, 0) == 48 && mark == 120 && is_digit(digit, 16) {
        16
    } else if byte(s, 0) == 48 && mark == 111 && is_digit(digit, 8) {
        8
    } else if byte(s, 0) == 48 && mark == 98 && is_digit(digit, 2) {
        2
    } else {
        10
    }
}

// How many bytes mark the radix.
fn mark_len_of(radix: u8) -> usize
    ensures { result ≡ mark_len_of radix }
{
    if radix == 10 { 0 } else { 2 }
}

// The value of digits of that radix, where it is below 2^127.
pub fn value_of(digits: &[u8], radix: u8) -> Option<u128>
    requires least { 2 ≤ radix }
    requires most { radix ≤ 16 }
    ensures { result ≡ value_of radix digits.now }
{
    let mut value: u128 = 0;
    for c in digits {
        value = next_value(value, radix, *c)?;
    }
    Some(value)
}

// The value of the digits so far and one more, where it is below 2^127.
fn next_value(value: u128, radix: u8, c: u8) -> Option<u128>
    requires small { value < 2 ^ 127 }
    requires least { 2 ≤ radix }
    requires most { radix ≤ 16 }
    ensures { result ≡ (if nat_lt (value * radix + digit_value c) (2 ^ 127) then Some (value * radix + digit_value c) else None) }
{
    let limit: u128 = 0x7fff_ffff_ffff_ffff_ffff_ffff_ffff_ffff;
    let small: u128 = 0x0100_0000_0000_0000_0000_0000_0000_0000;
    let digit = digit_value(c) as u128;
    let radix = radix as u128;
    if value < small {
        // No division is needed: the next value is below 2^125.
        return Some(value * radix + digit);
    }
    if value > limit / radix {
        return None;
    }
    let next = value * radix + digit;
    if next > limit { None } else { Some(next) }
}

// The number at the front of a text that begins with a digit.
pub fn number_at(s: &[u8]) -> Number
    ensures value { result ≡ number_at s.now }
    ensures within { result.len ≤ length s.now }
{
    let radix = radix_of(s);
    let mark_len = mark_len_of(radix);
    number_in(radix, mark_len, s.split_at(mark_len).1)
}

// The number of that radix whose digits begin the text, behind a mark of so many bytes.
#[tactic(auto, unfolding(crate::specs::Lexing::number_in))]
fn number_in(radix: u8, mark_len: usize, s: &[u8]) -> Number
    requires least { 2 ≤ radix }
    requires most { radix ≤ 16 }
    requires room { mark_len ≤ 2 }
    ensures value { result ≡ number_in radix mark_len s.now }
    ensures within { result.len ≤ mark_len + length s.now }
{
    let (digits, rest) = s.split_at(digits_len(s, radix));
    let suffix = rest.split_at(suffix_len(rest)).0;
    Number {
        len: mark_len + digits.len() + suffix.len(),
        value: value_of(digits, radix),
        suffix: suffix_named(suffix),
    }
}
