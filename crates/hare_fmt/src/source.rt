//! The layout of a file, from its bytes.

ghost use Rattle.std.specs.Prelude.{◌≡◌, ◌+◌, ◌<◌, ◌^◌, List, ℕ, length, IfOk, IfErr};
ghost use Rattle.hare_tree.specs.declared.place.Fault as fault;
ghost use Rattle.hare_decl.specs.Answers.{IsSource, HasSourceFault, Stops};
ghost use Rattle.hare_lines.specs.Layout.{IsLaidOut};
ghost use Rattle.hare_again.specs.Laid.{Keeps};
ghost use Rattle.hare_fmt.specs.Answer as spec;

use hare_decl::parse_source;
use hare_lines::{comments_before, write_pieces};
use hare_pieces::pieces_of;
use hare_tree::{Fault, FileTree, Stop};
use hare_ways::file_ways;
use hx_base::Bytes;
use std::alloc::{AllocError, Global};

/// The layout of the file with these bytes, of which there are fewer than 2^32 - 1: the same tokens, up to commas behind the last items of
/// lists, and the same comments, in the one layout.
///
/// It is the layout of itself: it has tokens and a tree. Its tokens are those of the file, with the commas behind last items of lists left
/// out on both sides, and its comments are those of the file, in order, without the blanks and the CR at their ends.
///
/// A file without a tree has none: the fault is that which `parse_source` finds in it as the file with number 0.
///
/// The time is linear in the bytes and the text, up to a factor of the brackets that are open round one another.
pub fn format(alloc: Global, src: &[u8]) -> Result<Bytes, Stop<Fault>>
    requires { length src.now + 1 < 2 ^ 32 }
    ensures ok { IfOk result (λ text. IsLaidOut src.now text) }
    ensures kept { IfOk result (λ text. Keeps src.now text) }
    ensures err { IfErr result (λ e. Stops (HasSourceFault 0 src.now) e) }
    ensures only_text { (text : List ℕ) → IsLaidOut src.now text → spec.GivesText text result }
    ensures only_fault { (f : fault.Fault) → HasSourceFault 0 src.now f → spec.GivesFault f result }
{
    let tree = parse_source(alloc, 0, src)?;
    let text = lay_out(alloc, src, &tree)?;
    Ok(text)
}

// The layout of a file with this tree.
fn lay_out(alloc: Global, src: &[u8], tree: &FileTree) -> Result<Bytes, AllocError>
    requires short { length src.now + 1 < 2 ^ 32 }
    requires tree { IsSource 0 src.now tree.now }
    ensures { IfOk result (λ text. IsLaidOut src.now text) }
{
    let pieces = pieces_of(alloc, src)?;
    let comments = comments_before(alloc, src, pieces.as_slice())?;
    let ways = file_ways(alloc, comments.as_slice(), tree)?;
    write_pieces(alloc, src, pieces.as_slice(), ways.as_slice())
}
