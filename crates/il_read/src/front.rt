//! Known bytes, names, numbers and strings at the front of a text. Each call gives what was read and what stands behind it.

ghost use Rattle.std.specs.Prelude.{◌≡◌, ◌<◌, ◌≤◌, IfOk, length, true, option_copied};
ghost use Rattle.std.specs.List.{prefix_len, All};
ghost use Rattle.std.specs.Char.{is_ascii_digit};
ghost use Rattle.std.specs.Str.{all_ascii_digits};
ghost use Rattle.il_code.specs.Tokens.{is_name_byte};
ghost use Rattle.il_read.specs.Front as spec;
ghost use Rattle.il_read.specs.Taken.{Takes, Skips};

use crate::taken::{NotPrinted, Taken};
use hx_base::{Bytes, Text};
use il_code::Stop;
use std::alloc::{AllocError, Global};

/// What stands behind these bytes, where the text begins with them.
pub fn behind<'a>(s: &'a [u8], bytes: &[u8]) -> Option<&'a [u8]>
    ensures { option_copied result ≡ spec.behind bytes.now s.now }
{
    s.strip_prefix(bytes)
}

/// What stands behind these bytes, with which the text begins.
pub fn skip<'a>(s: &'a [u8], bytes: &[u8]) -> Result<&'a [u8], Stop<NotPrinted>>
    ensures { Skips result (spec.behind bytes.now s.now) }
{
    match behind(s, bytes) {
        Some(rest) => Ok(rest),
        None => Err(Stop::Fault(NotPrinted)),
    }
}

/// The name at the front, without its sigil: letters, digits, underscores and dots, of which the first is no digit.
#[tactic(auto, unfolding(crate::specs::Front::name_at), using(crate::proofs::Fronts::names_are_ascii))]
pub fn name_at(alloc: Global, s: &[u8]) -> Taken<'_, Text>
    ensures { Takes result (spec.name_at s.now) }
{
    let count = name_len(s);
    if count == 0 {
        return Err(Stop::Fault(NotPrinted));
    }
    let (name, rest) = s.split_at(count);
    Ok((text_of(alloc, name)?, rest))
}

// How many bytes of a name stand at the front.
fn name_len(s: &[u8]) -> usize
    ensures value { result ≡ spec.name_len s.now }
    ensures within { result ≤ length s.now }
{
    match s {
        [] => 0,
        [first, ..] => {
            if first.is_ascii_digit() {
                0
            } else {
                name_bytes(s)
            }
        }
    }
}

/// How many letters, digits, underscores and dots stand at the front.
pub fn name_bytes(s: &[u8]) -> usize
    ensures value { result ≡ prefix_len is_name_byte s.now }
    ensures within { result ≤ length s.now }
{
    s.iter().take_while(|c| is_name_byte(**c)).count()
}

fn is_name_byte(c: u8) -> bool
    ensures { result ≡ is_name_byte c }
{
    c.is_ascii_alphanumeric() || c == b'_' || c == b'.'
}

// A text of these ASCII bytes.
fn text_of(alloc: Global, ascii: &[u8]) -> Result<Text, AllocError>
    requires { All (λ c. c < 128) ascii.now }
    ensures { IfOk result (λ t. t ≡ ascii.now) }
{
    let mut text = Text::new(alloc);
    for c in ascii {
        text.push(*c)?;
    }
    Ok(text)
}

/// The number below 2^64 that the decimal digits at the front spell.
#[tactic(auto, unfolding(crate::specs::Front::number_at), using(crate::proofs::Fronts::digits_in_front))]
pub fn number_at(s: &[u8]) -> Taken<'_, u64>
    ensures { Takes result (spec.number_at s.now) }
{
    let (digits, rest) = s.split_at(digit_len(s));
    match number_of(digits) {
        Some(number) => Ok((number, rest)),
        None => Err(Stop::Fault(NotPrinted)),
    }
}

// How many digits stand at the front.
fn digit_len(s: &[u8]) -> usize
    ensures value { result ≡ prefix_len is_ascii_digit s.now }
    ensures within { result ≤ length s.now }
{
    s.iter().take_while(|c| c.is_ascii_digit()).count()
}

// The number that decimal digits spell.
fn number_of(digits: &[u8]) -> Option<u64>
    requires { all_ascii_digits digits.now ≡ true }
    ensures { result ≡ spec.number_of digits.now }
{
    match std::str::from_utf8(digits) {
        Ok(text) => text.parse::<u64>().ok(),
        Err(_) => None,
    }
}

/// The bytes up to the next quote, and what stands behind it.
#[tactic(auto, unfolding(crate::specs::Front::string_at))]
pub fn string_at(alloc: Global, s: &[u8]) -> Taken<'_, Bytes>
    ensures { Takes result (spec.string_at s.now) }
{
    let (inside, rest) = s.split_at(inside_len(s));
    let rest = skip(rest, b"\"")?;
    let mut bytes = Bytes::new(alloc);
    bytes.extend(inside)?;
    Ok((bytes, rest))
}

// How many bytes stand in front of the next quote.
fn inside_len(s: &[u8]) -> usize
    ensures value { result ≡ prefix_len spec.is_inside s.now }
    ensures within { result ≤ length s.now }
{
    s.iter().take_while(|c| **c != b'"').count()
}
