//! Where trees end and begin: whether a tree goes on with the token that stands behind it, and whether it begins with a label.

ghost use Rattle.std.specs.Prelude.{◌≡◌, ◌<◌, ◌&&◌, not, IfSome, if◌then◌else◌};
ghost use Rattle.hare_tree.specs.declared.kind.Kind.{Kind};
ghost use Rattle.hare_tree.specs.declared.form.Sign.TheVariants as si;
ghost use Rattle.hare_tree.specs.Node.{head, kids_of, nodes_of};
ghost use Rattle.hare_tree.specs.Signs.{is_sign};
ghost use Rattle.hare_tree.specs.Shape as shape;
ghost use Rattle.hare_tree.specs.Judged.{begins_with_kid, begins_with_label, first_kind, nodes_from};

use crate::form::{Own, Piece, Sign};
use crate::forms::form_of;
use crate::kind::Kind;
use crate::tree::{Kids, Tree};

/// Whether a tree, where it stands before one of two signs, ends there: what it is spelled by would not go on with the sign. No other sign
/// of a form can go on with a kid.
#[derive(Clone, Copy)]
pub struct Ends {
    pub before_else: bool,
    pub before_comma: bool,
}

impl Ends {
    /// It ends before both.
    pub const BOTH: Ends = Ends {
        before_else: true,
        before_comma: true,
    };
}

/// What ends so, where it could go on with this sign.
pub fn without(ends: Ends, s: Sign) -> Ends
    ensures before_else { result.before_else ≡ (ends.before_else && not (is_sign s si.Else)) }
    ensures before_comma { result.before_comma ≡ (ends.before_comma && not (is_sign s si.Comma)) }
{
    match s {
        Sign::Else => Ends {
            before_else: false,
            before_comma: ends.before_comma,
        },
        Sign::Comma => Ends {
            before_else: ends.before_else,
            before_comma: false,
        },
        _ => ends,
    }
}

/// Whether a kid that ends so ends before the sign that stands behind it.
pub fn ends_before(behind: Option<Sign>, ends: Ends) -> bool
    ensures { (k : Kind) → result ≡ shape.ends_before behind record
        { kind = k; before_else = ends.before_else; before_comma = ends.before_comma } }
{
    match behind {
        Some(Sign::Else) => ends.before_else,
        Some(Sign::Comma) => ends.before_comma,
        _ => true,
    }
}

/// Whether a kind stands for what is not there.
pub fn is_none(k: Kind) -> bool
    ensures { result ≡ shape.is_none k }
{
    matches!(k, Kind::None)
}

/// The kind of the `i`th kid, if there is one.
fn kind_at(kids: &Kids, i: usize) -> Option<Kind>
    ensures value { result ≡ first_kind (nodes_from i (nodes_of kids.now)) }
    ensures within { IfSome result (λ k. i < 18446744073709551615) }
{
    if kids.len() <= i {
        return None;
    }
    match kids.get(i) {
        Some(kid) => Some(kid.kind),
        None => None,
    }
}

/// The sign that stands behind a kid, in front of these pieces of its form and the kids from the `from`th on.
pub fn sign_behind(behind: &[Piece], kids: &Kids, from: usize) -> Option<Sign>
    ensures { result ≡ shape.behind_kid behind.now (shape.edges (nodes_from from (nodes_of kids.now))) }
{
    let mut next = from;
    for at in 0..behind.len() {
        let piece = behind[at];
        match piece {
            Piece::Fixed(s) => return Some(s),
            Piece::More(_) => return comma_behind(kids, next),
            Piece::Led(s, _) => {
                if !is_none(kind_at(kids, next)?) {
                    return Some(s);
                }
                next += 1;
            }
            _ => return None,
        }
    }
    None
}

/// The comma behind an item of a list, in front of the kids from the `from`th on; none before `...`, nor where nothing stands.
pub fn comma_behind(kids: &Kids, from: usize) -> Option<Sign>
    ensures { result ≡ shape.behind_item (shape.edges (nodes_from from (nodes_of kids.now))) }
{
    for i in from..kids.len() {
        let kind = kind_at(kids, i)?;
        if !is_none(kind) {
            return comma_before(kind);
        }
    }
    None
}

/// The comma before what stands behind an item: none before `...`.
fn comma_before(k: Kind) -> Option<Sign>
    ensures { result ≡ (if shape.is_dots k then None else Some si.Comma) }
{
    match k {
        Kind::Dots => None,
        _ => Some(Sign::Comma),
    }
}

/// Whether a form begins with a label.
fn begins_with_label(form: &[Piece]) -> bool
    ensures { result ≡ begins_with_label form.now }
{
    matches!(form.first(), Some(Piece::Own(Own::Label)))
}

/// Whether a form begins with a kid.
fn begins_with_kid(form: &[Piece]) -> bool
    ensures { result ≡ begins_with_kid form.now }
{
    matches!(form.first(), Some(Piece::Kid(_)))
}

/// Whether a tree's first token is the `:` of a label.
fn begins_labelled(t: &Tree) -> bool
    ensures { result ≡ shape.begins_labelled t.now }
{
    let mut tree = t;
    while begins_with_kid(form_of(tree.kind)) {
        match tree.kids.get(0) {
            Some(kid) => tree = kid,
            None => return false,
        }
    }
    begins_with_label(form_of(tree.kind)) && !tree.text.bytes().is_empty()
}

/// Whether a kind is a `yield`.
fn is_yield(k: Kind) -> bool
    ensures { result ≡ shape.is_yield k }
{
    matches!(k, Kind::Yield)
}

/// Whether a tree is a `yield` without a label whose value begins with one.
pub fn takes_label(t: &Tree) -> bool
    ensures { not result ≡ shape.yields_label (head t.now) (kids_of t.now) }
{
    if !is_yield(t.kind) || !t.text.bytes().is_empty() {
        return false;
    }
    match t.kids.get(0) {
        Some(value) => begins_labelled(value),
        None => false,
    }
}
