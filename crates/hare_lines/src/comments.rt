//! How many comments stand in front of each token.

ghost use Rattle.std.specs.Prelude.{◌≡◌, [], ◌∷◌, ◌++◌, ◌&&◌, length, false, IfOk, OnOk, if◌then◌else◌};
ghost use Rattle.hare_lines.specs.Read as spec;
ghost use Rattle.hare_lines.specs.Layout.{InOrder};

use crate::read::{body_of, is_quoted};
use hare_pieces::Piece;
use std::alloc::{AllocError, Global};

/// How many comments stand in front of each of the tree's tokens, and in front of the end of the file, where these are the pieces of the
/// file. They stand in it in their order, none over another. Fails for want of memory alone.
pub fn comments_before(
    alloc: Global,
    src: &[u8],
    pieces: &[Piece],
) -> Result<Vec<usize>, AllocError>
    requires { InOrder 0 (length src.now) pieces.now }
    ensures { IfOk result (λ counts. counts.items ≡ spec.comments_before 0 false (spec.seen src.now pieces.now)) }
{
    let mut counts = Vec::new(alloc);
    let mut count = 0;
    let mut behind_string = false;
    for i in 0..pieces.len() {
        let piece = pieces[i];
        if piece.comment {
            count += 1;
            continue;
        }
        let is_string = is_quoted(body_of(src, piece));
        put_count(&mut counts, count, behind_string, is_string)?;
        behind_string = is_string;
    }
    counts.push(count)?;
    Ok(counts)
}

// Puts how many comments stand in front of a token, unless it is a string behind a string.
fn put_count(
    counts: &mut Vec<usize>,
    count: usize,
    behind_string: bool,
    is_string: bool,
) -> Result<(), AllocError>
    ensures { OnOk result (counts.new.items ≡ counts.old.items ++ (if behind_string && is_string then [] else count ∷ [])) }
{
    if !behind_string || !is_string {
        counts.push(count)?;
    }
    Ok(())
}
