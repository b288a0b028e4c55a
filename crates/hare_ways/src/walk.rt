//! The ways of a tree's tokens: the tree is walked once, beside its tokens.

ghost use Rattle.std.specs.Prelude.{◌≡◌, ◌≤◌, ◌<◌, ◌+◌, ◌^◌, ◌++◌, List, length, true, OnOk};
ghost use Rattle.hare_tree.specs.declared.form.Lead.TheVariants as le;
ghost use Rattle.hare_tree.specs.Node.{head, kids_of, nodes_of};
ghost use Rattle.hare_tree.specs.Judged.{nodes_from};
ghost use Rattle.hare_ways.specs.declared.way.Way.{Way};
ghost use Rattle.hare_ways.specs.Ways as ways;
ghost use Rattle.hare_ways.specs.Walk as spec;
ghost use Rattle.hare_ways.specs.Walk.{at_depth};

use crate::breaks::{Breaks, breaks_of};
use crate::kinds::{closing, is_braced, is_sign, opening, stands_alone};
use crate::part::{Part, kid_behind, part_of};
use crate::single::{fixed_way, put_own, sign_way};
use crate::way::{Start, Way};
use hare_tree::{Kids, Kind, Lead, Piece, Sign, Tree, form_of};
use std::alloc::AllocError;

// How the kids of a form stand: its kind, how they begin lines, and how many broken brackets are open.
#[derive(Clone, Copy)]
pub struct Stand {
    pub kind: Kind,
    pub start: Start,
    pub depth: u32,
}

// What of a form is put: the number of the next kid, and whether what follows stands inside the form's brackets.
#[derive(Clone, Copy)]
pub struct At {
    pub kid: usize,
    pub inside: bool,
}

// Puts the ways of a tree's tokens, which stand behind those of which the ways are put already.
#[cycle(walk)]
pub fn put_tree(
    out: &mut Vec<Way>,
    comments: &[usize],
    t: &Tree,
    depth: u32,
) -> Result<(), AllocError>
    requires room { length out.old.items + length (ways.ways comments.now (length out.old.items) t.now) < 2 ^ 32 }
    requires within { depth ≤ length out.old.items }
    ensures { OnOk result (out.new.items ≡ out.old.items ++ at_depth depth (ways.ways comments.now (length out.old.items) t.now)) }
{
    let breaks = breaks_of(comments, t, out.len());
    let form = form_of(t.kind);
    let mut at = At {
        kid: 0,
        inside: false,
    };
    for j in 0..form.len() {
        let part = part_of(form[j], t.text.bytes());
        let start = start_of(breaks, at.inside, form[j]);
        put_part(out, comments, t, breaks, part, start, at, depth)?;
        at = At {
            kid: kid_behind(part, at.kid, &t.kids),
            inside: inside_behind(breaks, at.inside, part),
        };
    }
    Ok(())
}

// Puts the ways of a part of a form, inside broken brackets one deeper.
#[cycle(walk)]
fn put_part(
    out: &mut Vec<Way>,
    comments: &[usize],
    t: &Tree,
    breaks: Breaks,
    part: Part,
    start: Start,
    at: At,
    depth: u32,
) -> Result<(), AllocError>
    requires room { length out.old.items + length (spec.part_ways comments.now (head t.now) breaks at.inside start part
        (length out.old.items) (nodes_from at.kid (kids_of t.now))) < 2 ^ 32 }
    requires within { depth ≤ length out.old.items }
    requires deeper { at.inside ≡ true → depth < length out.old.items }
    ensures { OnOk result (out.new.items ≡ out.old.items ++ at_depth depth
        (ways.within_brackets breaks at.inside (spec.part_ways comments.now (head t.now) breaks at.inside start part
        (length out.old.items) (nodes_from at.kid (kids_of t.now))))) }
{
    let stand = Stand {
        kind: t.kind,
        start,
        depth: depth_within(breaks, at.inside, depth),
    };
    match part {
        Part::Sign(s) => {
            out.push(fixed_way(breaks, at.inside, s, stand.depth))?;
            Ok(())
        }
        Part::Own(own) => put_own(out, t, own, stand.depth),
        Part::One(lead) => put_kid(out, comments, &t.kids, at.kid, lead, stand),
        Part::All(lead) => put_row(out, comments, &t.kids, at.kid, lead, stand),
        Part::Listed => put_listed(out, comments, &t.kids, at.kid, stand),
    }
}

// Puts the ways of the `i`th kid with the sign that stands with it; nothing where there is no such kid.
#[cycle(walk)]
fn put_kid(
    out: &mut Vec<Way>,
    comments: &[usize],
    kids: &Kids,
    i: usize,
    lead: Lead,
    stand: Stand,
) -> Result<(), AllocError>
    requires room { length out.old.items + length (spec.first_ways comments.now stand.kind stand.start lead (length out.old.items)
        (nodes_from i (nodes_of kids.now))) < 2 ^ 32 }
    requires within { stand.depth ≤ length out.old.items }
    ensures { OnOk result (out.new.items ≡ out.old.items ++ at_depth stand.depth
        (spec.first_ways comments.now stand.kind stand.start lead (length out.old.items) (nodes_from i (nodes_of kids.now)))) }
{
    match kids.get(i) {
        Some(kid) => put_led(out, comments, kid, lead, stand),
        None => Ok(()),
    }
}

// Puts the ways of all kids from one on, each with its sign.
#[cycle(walk)]
pub fn put_row(
    out: &mut Vec<Way>,
    comments: &[usize],
    kids: &Kids,
    from: usize,
    lead: Lead,
    stand: Stand,
) -> Result<(), AllocError>
    requires room { length out.old.items + length (spec.row_ways comments.now stand.kind stand.start lead (length out.old.items)
        (nodes_from from (nodes_of kids.now))) < 2 ^ 32 }
    requires within { stand.depth ≤ length out.old.items }
    ensures { OnOk result (out.new.items ≡ out.old.items ++ at_depth stand.depth
        (spec.row_ways comments.now stand.kind stand.start lead (length out.old.items) (nodes_from from (nodes_of kids.now)))) }
{
    for i in from..kids.len() {
        put_kid(out, comments, kids, i, lead, stand)?;
    }
    Ok(())
}

// Puts the ways of all kids from one on, with a comma before each but the first.
#[cycle(walk)]
fn put_listed(
    out: &mut Vec<Way>,
    comments: &[usize],
    kids: &Kids,
    from: usize,
    stand: Stand,
) -> Result<(), AllocError>
    requires room { length out.old.items + length (spec.listed_walk comments.now stand.kind stand.start (length out.old.items)
        (nodes_from from (nodes_of kids.now))) < 2 ^ 32 }
    requires within { stand.depth ≤ length out.old.items }
    ensures { OnOk result (out.new.items ≡ out.old.items ++ at_depth stand.depth
        (spec.listed_walk comments.now stand.kind stand.start (length out.old.items) (nodes_from from (nodes_of kids.now)))) }
{
    if kids.len() <= from {
        return Ok(());
    }
    put_kid(out, comments, kids, from, Lead::Nothing, stand)?;
    put_row(
        out,
        comments,
        kids,
        from + 1,
        Lead::Before(Sign::Comma),
        stand,
    )
}

// Puts the ways of a kid with the sign that stands with it.
#[cycle(walk)]
fn put_led(
    out: &mut Vec<Way>,
    comments: &[usize],
    kid: &Tree,
    lead: Lead,
    stand: Stand,
) -> Result<(), AllocError>
    requires room { length out.old.items + length (spec.kid_ways comments.now stand.kind stand.start lead
        (length out.old.items) kid.now) < 2 ^ 32 }
    requires within { stand.depth ≤ length out.old.items }
    ensures { OnOk result (out.new.items ≡ out.old.items ++ at_depth stand.depth
        (spec.kid_ways comments.now stand.kind stand.start lead (length out.old.items) kid.now)) }
{
    match lead {
        Lead::Nothing => put_started(out, comments, kid, stand),
        Lead::Before(s) => put_before(out, comments, kid, s, stand),
        Lead::Behind(s) => put_behind(out, comments, kid, s, stand),
    }
}

// Puts the ways of a kid behind its sign.
#[cycle(walk)]
fn put_before(
    out: &mut Vec<Way>,
    comments: &[usize],
    kid: &Tree,
    s: Sign,
    stand: Stand,
) -> Result<(), AllocError>
    requires room { length out.old.items + length (spec.kid_ways comments.now stand.kind stand.start (le.Before s)
        (length out.old.items) kid.now) < 2 ^ 32 }
    requires within { stand.depth ≤ length out.old.items }
    ensures { OnOk result (out.new.items ≡ out.old.items ++ at_depth stand.depth (spec.kid_ways comments.now stand.kind stand.start
        (le.Before s) (length out.old.items) kid.now)) }
{
    if stands_alone(kid.kind) {
        return put_tree(out, comments, kid, stand.depth);
    }
    out.push(sign_way(stand.kind, s, stand.depth))?;
    put_started(out, comments, kid, stand)
}

// Puts the ways of a kid in front of its sign.
#[cycle(walk)]
fn put_behind(
    out: &mut Vec<Way>,
    comments: &[usize],
    kid: &Tree,
    s: Sign,
    stand: Stand,
) -> Result<(), AllocError>
    requires room { length out.old.items + length (spec.kid_ways comments.now stand.kind stand.start (le.Behind s)
        (length out.old.items) kid.now) < 2 ^ 32 }
    requires within { stand.depth ≤ length out.old.items }
    ensures { OnOk result (out.new.items ≡ out.old.items ++ at_depth stand.depth (spec.kid_ways comments.now stand.kind stand.start
        (le.Behind s) (length out.old.items) kid.now)) }
{
    if stands_alone(kid.kind) {
        return put_tree(out, comments, kid, stand.depth);
    }
    put_started(out, comments, kid, stand)?;
    out.push(sign_way(stand.kind, s, stand.depth))?;
    Ok(())
}

// Puts the ways of a kid, whose first token begins a line or not.
#[cycle(walk)]
fn put_started(
    out: &mut Vec<Way>,
    comments: &[usize],
    kid: &Tree,
    stand: Stand,
) -> Result<(), AllocError>
    requires room { length out.old.items + length (ways.ways comments.now (length out.old.items) kid.now) < 2 ^ 32 }
    requires within { stand.depth ≤ length out.old.items }
    ensures { OnOk result (out.new.items ≡ out.old.items ++ at_depth stand.depth (ways.starting stand.start (ways.ways comments.now
        (length out.old.items) kid.now))) }
{
    let first = out.len();
    put_tree(out, comments, kid, stand.depth)?;
    begin(out, first, stand.start);
    Ok(())
}

// Lets the token with this number begin a line, or not, if it is there.
fn begin(out: &mut Vec<Way>, first: usize, start: Start)
    ensures { (front rest : List Way) → out.old.items ≡ front ++ rest → length front ≡ first
        → out.new.items ≡ front ++ ways.starting start rest }
{
    if first < out.len() {
        let way = out[first];
        out[first] = Way {
            start,
            depth: way.depth,
            joins_before: way.joins_before,
            joins_behind: way.joins_behind,
            comma: way.comma,
        };
    }
}

// How many broken brackets are open in front of a piece.
fn depth_within(breaks: Breaks, inside: bool, depth: u32) -> u32
    requires { inside ≡ true → depth + 1 < 2 ^ 32 }
    ensures { result ≡ spec.depth_within breaks inside depth }
{
    if breaks.brackets && inside {
        depth + 1
    } else {
        depth
    }
}

// How the kids of a piece begin lines: items between brackets, and statements.
fn start_of(breaks: Breaks, inside: bool, piece: Piece) -> Start
    ensures { result ≡ spec.start_of breaks inside piece }
{
    match piece {
        Piece::Kid(_)
        | Piece::Each(_)
        | Piece::More(_)
        | Piece::List(_)
        | Piece::Elements(_)
        | Piece::MoreElements(_) => item_start(breaks, inside),
        Piece::EachFollowed(_, _) => statement_start(breaks),
        _ => Start::Within,
    }
}

// How each item between brackets begins a line, and each case.
fn item_start(breaks: Breaks, inside: bool) -> Start
    ensures { result ≡ ways.item_start breaks inside }
{
    if breaks.brackets && inside {
        return if is_braced(breaks.kind) {
            Start::Outdented
        } else {
            Start::Begins
        };
    }
    Start::Within
}

// How each statement begins a line.
fn statement_start(breaks: Breaks) -> Start
    ensures { result ≡ ways.statement_start breaks }
{
    if breaks.statements {
        Start::Begins
    } else {
        Start::Within
    }
}

// Whether what stands behind a part stands inside the brackets of a form that is broken so.
fn inside_behind(breaks: Breaks, inside: bool, part: Part) -> bool
    ensures { result ≡ spec.inside_behind_part breaks inside part }
{
    match part {
        Part::Sign(s) => {
            if inside {
                !is_sign(s, closing(breaks.kind))
            } else {
                is_sign(s, opening(breaks.kind))
            }
        }
        _ => inside,
    }
}
