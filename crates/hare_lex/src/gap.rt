//! Blanks and comments, and places.

ghost use Rattle.std.specs.Prelude.{◌≡◌, ◌+◌, ◌^◌, ◌<◌, ◌≤◌, length, drop, false};
ghost use Rattle.hare_lex.specs.Fronts.{IsGapPart};
ghost use Rattle.hare_lex.specs.Lexing.{begins_comment, skipped, advanced};

use crate::bytes::{blank_len, byte, line_len};
use hare_tree::Place;

/// Blanks or a comment at the front of a text.
#[derive(Clone, Copy)]
pub struct GapPart {
    /// Whether it is a comment: from `//` to before the end of its line.
    pub comment: bool,
    /// How many bytes it has.
    pub len: usize,
}

/// All of the blanks that stand at the front of a text, or the comment that does. Behind all such parts a token stands, or a fault, or the
/// end.
///
/// The time is linear in the bytes of the part.
pub fn gap_part(s: &[u8]) -> Option<GapPart>
    ensures { IsGapPart s.now result }
{
    let blanks = blank_len(s);
    if blanks > 0 {
        Some(GapPart {
            comment: false,
            len: blanks,
        })
    } else if begins_comment(s) {
        Some(GapPart {
            comment: true,
            len: line_len(s),
        })
    } else {
        None
    }
}

// Whether `//` stands at the front.
fn begins_comment(s: &[u8]) -> bool
    ensures { result ≡ begins_comment s.now }
{
    byte(s, 0) == b'/' && byte(s, 1) == b'/'
}

// The length of the blanks and comments at the front.
pub fn gap_len(s: &[u8]) -> usize
    ensures value { drop result s.now ≡ skipped false s.now }
    ensures within { result ≤ length s.now }
{
    let mut len = 0;
    'parts: while let Some(part) = gap_part(s.split_at(len).1) {
        len += part.len;
    }
    len
}

// The place behind these bytes, which begin at the place.
pub fn advanced(place: Place, s: &[u8]) -> Place
    requires lines { place.line + length s.now < 2 ^ 32 }
    requires columns { place.column + length s.now < 2 ^ 32 }
    ensures { result ≡ advanced place s.now }
{
    let mut line = place.line;
    let mut column = place.column;
    for c in s {
        if *c == 10 {
            line += 1;
            column = 1;
        } else {
            column += 1;
        }
    }
    Place {
        file: place.file,
        line,
        column,
    }
}
