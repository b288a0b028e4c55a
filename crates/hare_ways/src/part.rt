//! What a piece of a form asks for.

ghost use Rattle.std.specs.Prelude.{◌≡◌};
ghost use Rattle.hare_tree.specs.Node.{nodes_of};
ghost use Rattle.hare_tree.specs.Judged.{nodes_from};
ghost use Rattle.hare_tree.specs.Spell as spell;
ghost use Rattle.hare_ways.specs.Parts as spec;

use hare_tree::{Kids, Kind, Lead, Own, Piece, Sign};

// What a piece of a form asks for, whatever sorts its kids are of.
#[derive(Clone, Copy)]
pub enum Part {
    // This keyword or mark.
    Sign(Sign),
    // What the text, number and suffix are spelled by.
    Own(Own),
    // At most one kid, with its sign.
    One(Lead),
    // All kids that are left, each with its sign.
    All(Lead),
    // All kids that are left, with a comma before each but the first.
    Listed,
}

// What a piece asks for, of a form with this text.
pub fn part_of(piece: Piece, text: &[u8]) -> Part
    ensures { result ≡ spec.part_of piece text.now }
{
    match piece {
        Piece::Fixed(s) => Part::Sign(s),
        Piece::Own(own) => Part::Own(own),
        Piece::Kid(_) | Piece::Optional(_) => Part::One(Lead::Nothing),
        Piece::Led(s, _) => Part::One(Lead::Before(s)),
        Piece::Followed(_, s) => Part::One(Lead::Behind(s)),
        Piece::Value(_) => Part::One(value_lead(text)),
        Piece::Each(_) => Part::All(Lead::Nothing),
        Piece::EachLed(s, _) => Part::All(Lead::Before(s)),
        Piece::EachFollowed(_, s) => Part::All(Lead::Behind(s)),
        Piece::More(_) | Piece::MoreElements(_) => Part::All(Lead::Before(Sign::Comma)),
        Piece::List(_) | Piece::Elements(_) => Part::Listed,
    }
}

// What stands with the value of a `yield`.
fn value_lead(text: &[u8]) -> Lead
    ensures { result ≡ spell.value_lead text.now }
{
    if text.is_empty() {
        return Lead::Nothing;
    }
    Lead::Before(Sign::Comma)
}

// The number of the first kid that is left behind a part, in front of which the kids from the `i`th on are left.
pub fn kid_behind(part: Part, i: usize, kids: &Kids) -> usize
    ensures { nodes_from result (nodes_of kids.now) ≡ spec.nodes_behind part (nodes_from i (nodes_of kids.now)) }
{
    match part {
        Part::Sign(_) | Part::Own(_) => i,
        Part::One(_) => next_kid(i, kids),
        Part::All(_) => kids.len(),
        Part::Listed => kids.len(),
    }
}

// The number of the kid behind the `i`th, or of none.
fn next_kid(i: usize, kids: &Kids) -> usize
    ensures { nodes_from result (nodes_of kids.now) ≡ nodes_from 1 (nodes_from i (nodes_of kids.now)) }
{
    if i < kids.len() { i + 1 } else { i }
}

// The kind of the `i`th kid; None where there is no such kid.
pub fn kind_at(kids: &Kids, i: usize) -> Kind
    ensures { result ≡ spec.first_kind (nodes_from i (nodes_of kids.now)) }
{
    match kids.get(i) {
        Some(kid) => kid.kind,
        None => Kind::None,
    }
}
