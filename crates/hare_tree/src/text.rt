//! Bytes of a text, and where a path is parted.

ghost use Rattle.std.specs.Prelude.{◌≡◌, ◌<◌, ◌+◌, ◌==◌, ◌&&◌, length, slice_index};
ghost use Rattle.hare_tree.specs.Spell as spec;

use crate::token::TokenKind;

/// The byte at a place, and 0 past the end.
pub fn byte_at(text: &[u8], i: usize) -> u8
    ensures { result ≡ slice_index text.now i }
{
    match text.get(i) {
        Some(c) => *c,
        None => 0,
    }
}

/// Whether two colons stand at a place.
pub fn is_path_mark(text: &[u8], i: usize) -> bool
    requires { i < length text.now }
    ensures { result ≡ (slice_index text.now i == 58 && slice_index text.now (i + 1) == 58) }
{
    byte_at(text, i) == b':' && byte_at(text, i + 1) == b':'
}

/// Whether a member is a number or a name.
pub fn member_kind(text: &[u8]) -> TokenKind
    ensures { result ≡ spec.member_kind text.now }
{
    if byte_at(text, 0).is_ascii_digit() {
        TokenKind::Number
    } else {
        TokenKind::Name
    }
}
