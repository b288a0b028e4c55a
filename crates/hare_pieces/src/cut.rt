//! The pieces of a text.

ghost use Rattle.std.specs.Prelude.{◌≡◌, ◌+◌, ◌^◌, ◌<◌, List, length, IfOk};
ghost use Rattle.hare_pieces.specs.declared.piece.Piece.{Piece};
ghost use Rattle.hare_pieces.specs.Pieces.{HasTokens, ArePieces};

use crate::comments::put_comments;
use crate::piece::Piece;
use crate::pieces::Pieces;
use hare_lex::{Found, first_token, is_path_mark};
use std::alloc::{AllocError, Global};

/// The tokens and comments of a text that has tokens without a fault, in order, by their bytes. Strings side by side are pieces of their
/// own. There are fewer than 2^32 - 1 bytes, as `tokens` asks.
///
/// The time is linear in the bytes.
pub fn pieces_of(alloc: Global, src: &[u8]) -> Result<Pieces, AllocError>
    requires short { length src.now + 1 < 2 ^ 32 }
    requires tokens { HasTokens src.now }
    ensures ok { IfOk result (λ ps. ArePieces src.now ps) }
    ensures only { (ps : List Piece) → ArePieces src.now ps → IfOk result (λ found. found ≡ ps) }
{
    cut(alloc, src)
}

// The pieces of a text that has tokens, by the walk that `tokens` makes.
fn cut(alloc: Global, src: &[u8]) -> Result<Pieces, AllocError>
    requires { HasTokens src.now }
    ensures { IfOk result (λ ps. ArePieces src.now ps) }
{
    let mut pieces = Pieces::new(alloc);
    let mut at = 0;
    let mut behind_path = false;
    let mut rest = src;
    'tokens: loop {
        let gap = put_comments(&mut pieces, at, rest)?;
        let text = rest.split_at(gap).1;
        at += gap;
        if text.is_empty() {
            return Ok(pieces);
        }
        match first_token(behind_path, text) {
            Found::Fault(_, _) => unreachable!(),
            Found::Token(kind, len, _, _) => {
                let (spelling, behind) = text.split_at(len);
                pieces.push(Piece {
                    from: at,
                    to: at + len,
                    comment: false,
                })?;
                behind_path = is_path_mark(kind, spelling);
                at += len;
                rest = behind;
            }
        }
    }
}
