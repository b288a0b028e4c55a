//! Which trees are shaped: each node has the kids of its form, what it says of itself is what its form asks for, operators obey precedence,
//! and no kid goes on with the token behind it.

ghost use Rattle.std.specs.Prelude.{◌≡◌, ◌<◌, ◌+◌, ◌&&◌, not, true, length, drop, option_map, if◌then◌else◌};
ghost use Rattle.hare_tree.specs.Node.{head, kids_of, nodes_of};
ghost use Rattle.hare_tree.specs.Forms.{form_of};
ghost use Rattle.hare_tree.specs.declared.form.Sign.TheVariants as si;
ghost use Rattle.hare_tree.specs.declared.shape.Step.TheVariants as st;
ghost use Rattle.hare_tree.specs.Signs.{is_sign};
ghost use Rattle.hare_tree.specs.Levels as levels;
ghost use Rattle.hare_tree.specs.Shape as shape;
ghost use Rattle.hare_tree.specs.Judged as spec;
ghost use Rattle.hare_tree.specs.Judged.{nodes_from};

use crate::depth::room_within;
use crate::edge::{Ends, comma_behind, ends_before, is_none, sign_behind, takes_label, without};
use crate::form::{Piece, Sign, Sort};
use crate::forms::form_of;
use crate::kind::Kind;
use crate::level::level;
use crate::own::{has_own, is_bare, own_of};
use crate::sort::{admits, sort_in};
use crate::tree::{Kids, Tree};

/// How far the kids of a form are judged: the next kid, and where what stands before it ends.
#[derive(Clone, Copy)]
struct At {
    kid: usize,
    ends: Ends,
}

/// What a piece of a form leaves to judge.
#[derive(Clone, Copy)]
enum Step {
    /// The pieces behind it, from here on.
    Next(At),
    /// Nothing: it has taken all kids, and the form ends there.
    Last,
}

/// Where a tree ends, if it is of this sort, shaped and no higher than so many nodes.
///
/// The call goes no deeper in the host than the tree is high, nodes counted, and three levels more for each: a tree that is of no sort is
/// not looked into.
#[cycle(shape)]
pub fn judged_tree(t: &Tree, sort: Sort, room: usize) -> Option<Ends>
    ensures { result ≡ spec.judged_tree room sort t.now }
{
    if !admits(sort, t.kind, t.text.bytes()) {
        return None;
    }
    if !has_own(own_of(form_of(t.kind)), t) {
        return None;
    }
    let ends = judged_kids(t, room_within(room, t.kind)?)?;
    if takes_label(t) {
        return None;
    }
    Some(ends)
}

/// Where a tree ends, if its kids are those of its form and no higher than so many nodes.
#[cycle(shape)]
fn judged_kids(t: &Tree, room: usize) -> Option<Ends>
    ensures { result ≡ spec.judged room (head t.now) spec.both (form_of (head t.now).kind) (kids_of t.now) }
{
    let form = form_of(t.kind);
    let mut at = At {
        kid: 0,
        ends: Ends::BOTH,
    };
    for j in 0..form.len() {
        match judged_piece(t, form, j, at, room)? {
            Step::Next(next) => at = next,
            Step::Last => return Some(Ends::BOTH),
        }
    }
    match t.kids.get(at.kid) {
        None => Some(at.ends),
        Some(_) => None,
    }
}

/// Judges the kids of one piece of a form, from the next kid on.
#[cycle(shape)]
fn judged_piece(t: &Tree, form: &[Piece], j: usize, at: At, room: usize) -> Option<Step>
    requires { j < length form.now }
    ensures { spec.judged_behind room (head t.now) (drop (j + 1) form.now) (kids_of t.now) result ≡ spec.judged room (head t.now) at.ends
        (drop j form.now) (nodes_from at.kid (kids_of t.now)) }
{
    let behind = form.split_at(j + 1).1;
    let piece = form[j];
    match piece {
        Piece::Fixed(_) | Piece::Own(_) => next(Some(At {
            kid: at.kid,
            ends: Ends::BOTH,
        })),
        Piece::Kid(s) => next(judged_first(t, behind, at.kid, kid_sort(t, s), room)),
        Piece::Optional(s) => next(judged_optional(t, behind, at, s, room)),
        Piece::Led(c, s) => next(judged_optional(t, behind, led(at, c), s, room)),
        Piece::Followed(s, _) => next(judged_followed(t, at, s, room)),
        Piece::Value(s) => next(judged_optional(t, behind, valued(at, t), s, room)),
        Piece::Each(s) => last(all_low(&t.kids, at.kid, s, room)),
        Piece::EachLed(_, s) => last(all_low(&t.kids, at.kid, s, room)),
        Piece::EachFollowed(s, _) => last(all_low(&t.kids, at.kid, s, room)),
        Piece::More(s) => last(more_low(&t.kids, at.kid, s, room)),
        Piece::List(s) => last(list_low(&t.kids, at.kid, s, room)),
        Piece::Elements(s) => last(elements_low(&t.kids, at.kid, s, room)),
        Piece::MoreElements(s) => last(more_elements_low(&t.kids, at.kid, s, room)),
    }
}

/// The step behind a piece with one kid or none.
fn next(at: Option<At>) -> Option<Step>
    ensures { result ≡ option_map st.Next at }
{
    match at {
        Some(at) => Some(Step::Next(at)),
        None => None,
    }
}

/// The step behind a piece with all kids that are left.
fn last(holds: bool) -> Option<Step>
    ensures { result ≡ (if holds then Some st.Last else None) }
{
    if holds { Some(Step::Last) } else { None }
}

/// The sort of a kid of a tree.
fn kid_sort(t: &Tree, s: Sort) -> Sort
    ensures { result ≡ levels.sort_in (levels.level (head t.now).kind (head t.now).text) s }
{
    sort_in(level(t.kind, t.text.bytes()), s)
}

/// Where what stands before a kid with a sign before it ends, if the kid is absent: it could go on with the sign.
fn led(at: At, s: Sign) -> At
    ensures kid { result.kid ≡ at.kid }
    ensures before_else { result.ends.before_else ≡ (at.ends.before_else && not (is_sign s si.Else)) }
    ensures before_comma { result.ends.before_comma ≡ (at.ends.before_comma && not (is_sign s si.Comma)) }
{
    At {
        kid: at.kid,
        ends: without(at.ends, s),
    }
}

/// Where a `yield` without a value ends: with a label it could go on with a comma.
fn valued(at: At, t: &Tree) -> At
    ensures kid { result.kid ≡ at.kid }
    ensures before_else { result.ends.before_else ≡ true }
    ensures before_comma { result.ends.before_comma ≡ shape.is_empty (head t.now).text }
{
    At {
        kid: at.kid,
        ends: Ends {
            before_else: true,
            before_comma: t.text.bytes().is_empty(),
        },
    }
}

// ---- single kids

/// Judges the next kid: it is of the sort, and ends before the sign that stands behind it.
#[cycle(shape)]
fn judged_first(t: &Tree, behind: &[Piece], i: usize, sort: Sort, room: usize) -> Option<At>
    ensures { result ≡ spec.judged_first room sort (shape.behind_kid behind.now (shape.edges (nodes_from (i + 1) (kids_of t.now)))) i
        (nodes_from i (kids_of t.now)) }
{
    if t.kids.len() <= i {
        return None;
    }
    let sign = sign_behind(behind, &t.kids, i + 1);
    let ends = judged_tree(t.kids.get(i)?, sort, room)?;
    if !ends_before(sign, ends) {
        return None;
    }
    Some(At { kid: i + 1, ends })
}

/// Judges the next kid, which may be absent: then what stands before it ends there.
#[cycle(shape)]
fn judged_optional(t: &Tree, behind: &[Piece], at: At, sort: Sort, room: usize) -> Option<At>
    ensures { result ≡ spec.judged_optional room sort (shape.behind_kid behind.now (shape.edges (nodes_from (at.kid + 1) (kids_of t.now))))
        at (nodes_from at.kid (kids_of t.now)) }
{
    if t.kids.len() <= at.kid {
        return None;
    }
    let kid = t.kids.get(at.kid)?;
    if !is_none(kid.kind) {
        return judged_first(t, behind, at.kid, sort, room);
    }
    if !is_absent(kid) {
        return None;
    }
    Some(At {
        kid: at.kid + 1,
        ends: at.ends,
    })
}

/// Judges the next kid, which may be absent, and behind which a sign stands: the form ends there with the sign.
#[cycle(shape)]
fn judged_followed(t: &Tree, at: At, sort: Sort, room: usize) -> Option<At>
    ensures { result ≡ spec.judged_followed room sort at (nodes_from at.kid (kids_of t.now)) }
{
    let kid = t.kids.get(at.kid)?;
    if is_none(kid.kind) {
        return judged_optional(t, &[], at, sort, room);
    }
    let found = judged_first(t, &[], at.kid, sort, room)?;
    Some(At {
        kid: found.kid,
        ends: Ends::BOTH,
    })
}

// ---- lists

/// Whether all kids from the `from`th on are of the sort.
#[cycle(shape)]
fn all_low(kids: &Kids, from: usize, sort: Sort, room: usize) -> bool
    ensures { result ≡ spec.all_low room sort (nodes_from from (nodes_of kids.now)) }
{
    for i in from..kids.len() {
        if !kid_low(kids, i, sort, room) {
            return false;
        }
    }
    true
}

/// Whether the `i`th kid is of the sort.
#[cycle(shape)]
fn kid_low(kids: &Kids, i: usize, sort: Sort, room: usize) -> bool
    ensures { result ≡ spec.kid_low room sort (nodes_from i (nodes_of kids.now)) }
{
    match kids.get(i) {
        Some(kid) => match judged_tree(kid, sort, room) {
            Some(_) => true,
            None => false,
        },
        None => false,
    }
}

/// Whether the `i`th kid is an item of a list: of the sort, and it ends before the comma that stands behind it.
#[cycle(shape)]
fn item_low(kids: &Kids, i: usize, sort: Sort, room: usize) -> bool
    ensures { result ≡ spec.item_low room sort (nodes_from i (nodes_of kids.now)) }
{
    if kids.len() <= i {
        return false;
    }
    let sign = comma_behind(kids, i + 1);
    match kids.get(i) {
        Some(kid) => match judged_tree(kid, sort, room) {
            Some(ends) => ends_before(sign, ends),
            None => false,
        },
        None => false,
    }
}

/// Whether the kids from the `from`th on are items and last of all a comma or nothing.
#[cycle(shape)]
fn more_low(kids: &Kids, from: usize, sort: Sort, room: usize) -> bool
    ensures { result ≡ spec.more_low room sort (nodes_from from (nodes_of kids.now)) }
{
    if kids.len() <= from {
        return false;
    }
    let end = kids.len() - 1;
    for i in from..end {
        if !item_low(kids, i, sort, room) {
            return false;
        }
    }
    is_comma_at(kids, end)
}

/// Whether the kids from the `from`th on are nothing, or such a list.
#[cycle(shape)]
fn list_low(kids: &Kids, from: usize, sort: Sort, room: usize) -> bool
    ensures { result ≡ spec.list_low room sort (nodes_from from (nodes_of kids.now)) }
{
    if kids.len().saturating_sub(from) == 1 {
        return is_absent_at(kids, from);
    }
    more_low(kids, from, sort, room)
}

/// Whether the kids from the `from`th on are nothing, or such elements.
#[cycle(shape)]
fn elements_low(kids: &Kids, from: usize, sort: Sort, room: usize) -> bool
    ensures { result ≡ spec.elements_low room sort (nodes_from from (nodes_of kids.now)) }
{
    if kids.len().saturating_sub(from) == 2 {
        return is_absent_at(kids, from) && is_absent_at(kids, from + 1);
    }
    more_elements_low(kids, from, sort, room)
}

/// Whether the kids from the `from`th on are items, then `...` or nothing, and last of all a comma or nothing.
#[cycle(shape)]
fn more_elements_low(kids: &Kids, from: usize, sort: Sort, room: usize) -> bool
    ensures { result ≡ spec.more_elements_low room sort (nodes_from from (nodes_of kids.now)) }
{
    if kids.len().saturating_sub(from) < 2 {
        return false;
    }
    let end = kids.len() - 2;
    for i in from..end {
        if !item_low(kids, i, sort, room) {
            return false;
        }
    }
    are_dots_at(kids, end) && is_comma_at(kids, end + 1)
}

// ---- leaves

/// Whether a tree stands for what is not there, and says nothing else.
fn is_absent(t: &Tree) -> bool
    ensures { result ≡ shape.is_absent t.now }
{
    is_none(t.kind) && is_bare(t)
}

/// Whether a tree is the last comma of a list, or stands for none.
fn is_last_comma(t: &Tree) -> bool
    ensures { result ≡ shape.is_leaf shape.is_none_or_comma t.now }
{
    is_none_or_comma(t.kind) && is_bare(t)
}

/// Whether a tree is `...`, or stands for none.
fn are_last_dots(t: &Tree) -> bool
    ensures { result ≡ shape.is_leaf shape.is_none_or_dots t.now }
{
    is_none_or_dots(t.kind) && is_bare(t)
}

/// Whether a kind is a trailing comma or stands for none.
fn is_none_or_comma(k: Kind) -> bool
    ensures { result ≡ shape.is_none_or_comma k }
{
    matches!(k, Kind::None | Kind::TrailingComma)
}

/// Whether a kind is `...` or stands for none.
fn is_none_or_dots(k: Kind) -> bool
    ensures { result ≡ shape.is_none_or_dots k }
{
    matches!(k, Kind::None | Kind::Dots)
}

/// Whether the `i`th kid is there as a tree for what is not there.
fn is_absent_at(kids: &Kids, i: usize) -> bool
    ensures { result ≡ spec.first_is shape.is_none (nodes_from i (nodes_of kids.now)) }
{
    match kids.get(i) {
        Some(t) => is_absent(t),
        None => false,
    }
}

/// Whether the `i`th kid is the last comma of a list, or stands for none.
fn is_comma_at(kids: &Kids, i: usize) -> bool
    ensures { result ≡ spec.first_is shape.is_none_or_comma (nodes_from i (nodes_of kids.now)) }
{
    match kids.get(i) {
        Some(t) => is_last_comma(t),
        None => false,
    }
}

/// Whether the `i`th kid is `...`, or stands for none.
fn are_dots_at(kids: &Kids, i: usize) -> bool
    ensures { result ≡ spec.first_is shape.is_none_or_dots (nodes_from i (nodes_of kids.now)) }
{
    match kids.get(i) {
        Some(t) => are_last_dots(t),
        None => false,
    }
}
