//! The comments in front of a token.

ghost use Rattle.std.specs.Prelude.{◌≡◌, ◌+◌, ◌^◌, ◌<◌, ◌≤◌, true, length, drop, IfOk};
ghost use Rattle.hare_tree.specs.Tokens.{no_gap};
ghost use Rattle.hare_pieces.specs.Walk as spec;

use crate::piece::Piece;
use crate::pieces::Pieces;
use hare_lex::{GapPart, gap_part};
use std::alloc::AllocError;

// Puts the comments in front of the next token, in a text that begins behind `at` bytes of the file, and gives the length of what stands
// before that token.
pub fn put_comments(pieces: &mut Pieces, at: usize, s: &[u8]) -> Result<usize, AllocError>
    requires { at + length s.now < 2 ^ 64 }
    ensures within { IfOk result (λ n. n ≤ length s.now) }
    ensures leads { IfOk result (λ n. spec.Leads at s.now pieces.old pieces.new n) }
    ensures fresh { IfOk result (λ n. no_gap (drop n s.now) ≡ true) }
{
    let mut len = 0;
    'gap: while let Some(part) = gap_part(s.split_at(len).1) {
        put_part(pieces, at + len, part)?;
        len += part.len;
    }
    Ok(len)
}

// Puts the part of a gap that stands behind `at` bytes of the file, if it is a comment.
fn put_part(pieces: &mut Pieces, at: usize, part: GapPart) -> Result<(), AllocError>
    requires { at + part.len < 2 ^ 64 }
    ensures { IfOk result (λ _. pieces.new ≡ spec.with_part at part pieces.old) }
{
    if part.comment {
        pieces.push(Piece {
            from: at,
            to: at + part.len,
            comment: true,
        })?;
    }
    Ok(())
}
