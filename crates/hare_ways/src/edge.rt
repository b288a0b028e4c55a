//! Where trees end.

ghost use Rattle.std.specs.Prelude.{◌≡◌};
ghost use Rattle.hare_tree.specs.declared.form.Sign.TheVariants as si;
ghost use Rattle.hare_tree.specs.Node.{head, kids_of, nodes_of};
ghost use Rattle.hare_tree.specs.Shape as shape;
ghost use Rattle.hare_tree.specs.Judged.{nodes_from};
ghost use Rattle.hare_ways.specs.Parts.{first_kind};
ghost use Rattle.hare_ways.specs.Edges as spec;

use crate::kinds::is_sign;
use crate::part::kind_at;
use hare_tree::{Kids, Kind, Piece, Sign, Tree, form_of};

// Where the end of a tree is told.
#[derive(Clone, Copy)]
pub enum End {
    // Here: a comma behind the tree is its own, or not.
    Here(bool),
    // At the end of the kid with this number.
    Kid(usize),
}

// What of a form is looked at: the next kid, and the end of what stands before it.
#[derive(Clone, Copy)]
pub struct Seen {
    pub kid: usize,
    pub end: End,
}

// Whether a tree, where it stands before a comma, ends there. Only what may stand last in it is looked into.
#[cycle(edge)]
pub fn ends_before_comma(t: &Tree) -> bool
    ensures { result ≡ shape.stops si.Comma t.now }
{
    match end_of(t) {
        End::Here(ends) => ends,
        End::Kid(i) => kid_ends(&t.kids, i),
    }
}

// The same of a kid; what is not there ends.
#[cycle(edge)]
fn kid_ends(kids: &Kids, i: usize) -> bool
    ensures { result ≡ spec.first_ends (nodes_from i (nodes_of kids.now)) }
{
    match kids.get(i) {
        Some(kid) => ends_before_comma(kid),
        None => true,
    }
}

// Where the end of a tree is told.
fn end_of(t: &Tree) -> End
    ensures { spec.end_told result (kids_of t.now) ≡ shape.stops si.Comma t.now }
{
    let form = form_of(t.kind);
    let mut seen = Seen {
        kid: 0,
        end: End::Here(true),
    };
    for j in 0..form.len() {
        match end_behind(t, form[j], seen) {
            Some(next) => seen = next,
            None => return End::Here(true),
        }
    }
    seen.end
}

// What is told behind a piece of a form; nothing more behind pieces of which any number of kids stand, nor where a kid is missing.
fn end_behind(t: &Tree, piece: Piece, seen: Seen) -> Option<Seen>
    ensures { result ≡ spec.end_behind (head t.now) piece (nodes_from seen.kid (kids_of t.now)) seen }
{
    let i = seen.kid;
    let kids = &t.kids;
    match piece {
        Piece::Fixed(_) | Piece::Own(_) => Some(Seen {
            kid: i,
            end: End::Here(true),
        }),
        Piece::Kid(_) => behind_kid(kids, i, End::Kid(i)),
        Piece::Optional(_) => behind_kid(kids, i, end_or(kids, i, seen.end, End::Kid(i))),
        Piece::Led(s, _) => {
            let end = end_or(kids, i, end_led(seen.end, s), End::Kid(i));
            behind_kid(kids, i, end)
        }
        Piece::Followed(_, _) => behind_kid(kids, i, end_or(kids, i, seen.end, End::Here(true))),
        Piece::Value(_) => {
            let end = end_or(kids, i, End::Here(t.text.bytes().is_empty()), End::Kid(i));
            behind_kid(kids, i, end)
        }
        _ => None,
    }
}

// Behind a kid, if it is there.
fn behind_kid(kids: &Kids, i: usize, end: End) -> Option<Seen>
    ensures { result ≡ spec.behind_kid (nodes_from i (nodes_of kids.now)) i end }
{
    if i < kids.len() {
        Some(Seen { kid: i + 1, end })
    } else {
        None
    }
}

// One end where nothing stands in the place of a kid, and the other where something does.
fn end_or(kids: &Kids, i: usize, absent: End, there: End) -> End
    ensures { result ≡ spec.end_or (first_kind (nodes_from i (nodes_of kids.now))) absent there }
{
    if is_none(kind_at(kids, i)) {
        absent
    } else {
        there
    }
}

// Whether a kind stands for what is not there.
fn is_none(k: Kind) -> bool
    ensures { result ≡ shape.is_none k }
{
    matches!(k, Kind::None)
}

// The end of what could go on with a sign.
fn end_led(end: End, s: Sign) -> End
    ensures { result ≡ spec.end_led end s }
{
    if is_sign(s, Sign::Comma) {
        End::Here(false)
    } else {
        end
    }
}
