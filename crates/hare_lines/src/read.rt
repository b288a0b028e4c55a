//! What is read of a text.

ghost use Rattle.std.specs.Prelude.{◌≡◌, ◌<◌, ◌≤◌, length, slice_index, drop};
ghost use Rattle.hare_tree.specs.Words as words;
ghost use Rattle.hare_lines.specs.Read as spec;
ghost use Rattle.hare_lines.specs.Gaps.{next_is_string};
ghost use Rattle.hare_lines.specs.Layout.{InOrder};

use crate::way::Feeds;
use hare_pieces::Piece;

// The line ends among bytes.
pub fn feeds_in(s: &[u8]) -> Feeds
    ensures { result ≡ spec.feeds_in s.now }
{
    match s.iter().filter(|c| **c == b'\n').count() {
        0 => Feeds::Same,
        1 => Feeds::Next,
        _ => Feeds::Empty,
    }
}

// Bytes without the blanks at their end.
fn trimmed(s: &[u8]) -> &[u8]
    ensures { result.now ≡ spec.trimmed s.now }
{
    let mut end = s.len();
    'blanks: while 0 < end && is_blank(s[end - 1]) {
        end -= 1;
    }
    s.split_at(end).0
}

// A space, a tab, LF or CR.
fn is_blank(c: u8) -> bool
    ensures { result ≡ words.is_blank c }
{
    c == b' ' || c == b'\t' || c == b'\n' || c == b'\r'
}

// The bytes of a piece.
pub fn body_of<'a>(src: &'a [u8], piece: Piece) -> &'a [u8]
    requires ordered { piece.from ≤ piece.to }
    requires within { piece.to ≤ length src.now }
    ensures { result.now ≡ spec.body_of src.now piece }
{
    let bytes = &src[piece.from..piece.to];
    if piece.comment { trimmed(bytes) } else { bytes }
}

// Whether bytes begin as a string does.
pub fn is_quoted(body: &[u8]) -> bool
    ensures { result ≡ spec.is_quoted body.now }
{
    match body.first() {
        Some(c) => *c == b'"' || *c == b'`',
        None => false,
    }
}

// Whether the next token of these pieces is a string.
pub fn next_is_string(src: &[u8], pieces: &[Piece], at: usize) -> bool
    requires { InOrder at (length src.now) pieces.now }
    ensures { result ≡ next_is_string (spec.seen_from src.now at pieces.now) }
{
    for piece in pieces {
        if !piece.comment {
            return is_quoted(body_of(src, *piece));
        }
    }
    false
}
