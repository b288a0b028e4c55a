//! The tokens of a tree, from the form of its kind.

mod left;
mod own;
mod single;

ghost use Rattle.std.specs.Prelude.{◌≡◌, ◌≤◌, ◌<◌, ◌+◌, drop, ◌++◌, IfOk, OnOk};
ghost use Rattle.hare_tree.specs.Node.{head, kids_of};
ghost use Rattle.hare_tree.specs.Judged.{nodes_from};
ghost use Rattle.hare_tree.specs.Spell as spec;
ghost use Rattle.hare_tree.specs.Left.{entry_tokens, entry_weight, form_tokens, form_weight, left_tokens, left_weight, weights, count_of, kid_behind};

use crate::form::{Lead, Piece, Sign};
use crate::forms::form_of;
use crate::token::TokenKind;
use crate::tokens::Tokens;
use crate::tree::{FileTree, Kids};
use crate::unparse::left::{Entry, Pieces, Row, kid_behind, leave_listed, leave_one, leave_row};
use crate::unparse::own::put_own;
use crate::unparse::single::{put_sign, put_word};
use std::alloc::{AllocError, Global};

/// The tokens of a file's tree, the last of them End. Each has line 1 and column 1 of the tree's file as its place.
///
/// A tree whose kids are not those of its form is spelled as well: a kid that is missing has no tokens, and a kid too many is passed over.
/// What is left to be put stands on the heap, so the call goes no deeper in the host for a deep tree. It fails for
/// want of memory alone.
pub fn spell(alloc: Global, t: &FileTree) -> Result<Tokens, AllocError>
    ensures { IfOk result (λ ts. ts ≡ spec.spell_file t.now) }
{
    let mut out = Tokens::new(alloc);
    put_all(&mut out, alloc, t.file, &t.uses)?;
    put_all(&mut out, alloc, t.file, &t.decls)?;
    put_word(&mut out, alloc, t.file, TokenKind::End, b"")?;
    Ok(out)
}

/// Puts the tokens of trees side by side. Each entry that is taken leaves entries of less weight together, so the loop ends.
fn put_all(out: &mut Tokens, alloc: Global, file: u32, trees: &Kids) -> Result<(), AllocError>
    ensures { OnOk result (out.new ≡ out.old ++ spec.spell_all file trees.now) }
{
    let mut left = Vec::new(alloc);
    left.push(Entry::Row(Row {
        kids: trees,
        from: 0,
        lead: Lead::Nothing,
    }))?;
    while let Some(entry) = left.pop() {
        put_entry(out, alloc, file, entry, &mut left)?;
    }
    Ok(())
}

/// Puts the first tokens of an entry, and leaves the others to be put.
fn put_entry<'a>(
    out: &mut Tokens,
    alloc: Global,
    file: u32,
    entry: Entry<'a>,
    left: &mut Vec<Entry<'a>>,
) -> Result<(), AllocError>
    ensures tokens { OnOk result (out.new ++ left_tokens file left.new.items ≡ out.old ++
        (entry_tokens file entry.entry ++ left_tokens file left.old.items)) }
    ensures weight { OnOk result (left_weight left.new.items < left_weight left.old.items + entry_weight entry.entry) }
{
    match entry {
        Entry::Sign(s) => put_sign(out, alloc, file, s),
        Entry::Row(row) => leave_row(left, row.kids, row.from, row.lead),
        Entry::Pieces(pieces) => put_pieces(out, alloc, file, pieces, left),
    }
}

/// Puts the first piece of a form, and leaves the others to be put.
fn put_pieces<'a>(
    out: &mut Tokens,
    alloc: Global,
    file: u32,
    pieces: Pieces<'a>,
    left: &mut Vec<Entry<'a>>,
) -> Result<(), AllocError>
    ensures tokens { OnOk result (out.new ++ left_tokens file left.new.items ≡ out.old ++
        (form_tokens file pieces.entry ++ left_tokens file left.old.items)) }
    ensures weight { OnOk result (left_weight left.new.items < left_weight left.old.items + form_weight pieces.entry) }
{
    let tree = pieces.tree;
    let form = form_of(tree.kind);
    if form.len() <= pieces.piece {
        return Ok(());
    }
    let piece = form[pieces.piece];
    left.push(Entry::Pieces(Pieces {
        tree,
        piece: pieces.piece + 1,
        kid: kid_behind(piece, pieces.kid, tree.kids.len()),
    }))?;
    put_piece(out, alloc, file, pieces, piece, left)
}

/// Puts a piece's sign or the tree's own tokens, or leaves the kids of the piece to be put.
fn put_piece<'a>(
    out: &mut Tokens,
    alloc: Global,
    file: u32,
    at: Pieces<'a>,
    piece: Piece,
    left: &mut Vec<Entry<'a>>,
) -> Result<(), AllocError>
    ensures tokens { OnOk result (out.new ++ left_tokens file left.new.items ≡ out.old ++
        (spec.piece_tokens file (head at.entry.tree.now) piece (drop at.entry.kid (spec.kids_spelled file at.entry.tree.now)) ++
        left_tokens file left.old.items)) }
    ensures weight { OnOk result (left_weight left.new.items + weights
        (nodes_from (kid_behind piece at.entry.kid (count_of (kids_of at.entry.tree.now))) (kids_of at.entry.tree.now)) ≤ left_weight
        left.old.items + weights (nodes_from at.entry.kid (kids_of at.entry.tree.now))) }
{
    let tree = at.tree;
    let kids = &tree.kids;
    let i = at.kid;
    match piece {
        Piece::Fixed(s) => put_sign(out, alloc, file, s),
        Piece::Own(own) => put_own(out, alloc, file, tree, own),
        Piece::Kid(_) | Piece::Optional(_) => leave_one(left, kids, i, Lead::Nothing),
        Piece::Led(s, _) => leave_one(left, kids, i, Lead::Before(s)),
        Piece::Followed(_, s) => leave_one(left, kids, i, Lead::Behind(s)),
        Piece::Value(_) => leave_one(left, kids, i, value_lead(tree.text.bytes())),
        Piece::Each(_) => leave_row(left, kids, i, Lead::Nothing),
        Piece::EachLed(s, _) => leave_row(left, kids, i, Lead::Before(s)),
        Piece::EachFollowed(_, s) => leave_row(left, kids, i, Lead::Behind(s)),
        Piece::More(_) | Piece::MoreElements(_) => {
            leave_row(left, kids, i, Lead::Before(Sign::Comma))
        }
        Piece::List(_) | Piece::Elements(_) => leave_listed(left, kids, i),
    }
}

/// What stands with the value of a `yield`.
fn value_lead(text: &[u8]) -> Lead
    ensures { result ≡ spec.value_lead text.now }
{
    if text.is_empty() {
        return Lead::Nothing;
    }
    Lead::Before(Sign::Comma)
}
