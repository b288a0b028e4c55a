//! The items of lists and the statements of braces and cases.

ghost use Rattle.std.specs.Prelude.{◌≡◌, false};
ghost use Rattle.hare_tree.specs.Node.{head, kids_of, nodes_of};
ghost use Rattle.hare_tree.specs.Forms.{form_of};
ghost use Rattle.hare_tree.specs.Judged.{nodes_from};
ghost use Rattle.hare_ways.specs.Breaks as breaks;
ghost use Rattle.hare_ways.specs.Parts as spec;

use crate::edge::ends_before_comma;
use crate::kinds::{is_comma, is_fixed};
use crate::part::{kid_behind, kind_at, part_of};
use hare_tree::{Kids, Kind, Sign, Tree, form_of};

// The number of the first kid behind the first of these signs of a tree's form.
pub fn kids_behind(s: Sign, t: &Tree) -> usize
    ensures { spec.items_of (nodes_from result (kids_of t.now))
        ≡ breaks.kids_behind s (form_of (head t.now).kind) (spec.items_of (kids_of t.now)) }
{
    let form = form_of(t.kind);
    let mut kid = 0;
    for j in 0..form.len() {
        if is_fixed(s, form[j]) {
            return kid;
        }
        kid = kid_behind(part_of(form[j], t.text.bytes()), kid, &t.kids);
    }
    kid
}

// Whether there is no kid from one on.
pub fn is_nil(kids: &Kids, from: usize) -> bool
    ensures { result ≡ breaks.is_nil (spec.items_of (nodes_from from (nodes_of kids.now))) }
{
    kids.len() <= from
}

// Whether there is exactly one kid from one on.
pub fn is_one(kids: &Kids, from: usize) -> bool
    ensures { result ≡ breaks.is_one (spec.items_of (nodes_from from (nodes_of kids.now))) }
{
    if kids.len() <= from {
        return false;
    }
    kids.len() <= from + 1
}

// Whether a comma stands behind the last item of a list.
pub fn ends_in_comma(kids: &Kids, from: usize) -> bool
    ensures { result ≡ breaks.ends_in_comma (spec.items_of (nodes_from from (nodes_of kids.now))) }
{
    for i in from..kids.len() {
        if is_comma(kind_at(kids, i)) {
            return true;
        }
    }
    false
}

// Whether a comma may be added behind the last item of a list.
pub fn wants_comma(kids: &Kids, from: usize) -> bool
    ensures { result ≡ breaks.wants_comma false (spec.items_of (nodes_from from (nodes_of kids.now))) }
{
    let mut wants = false;
    for i in from..kids.len() {
        wants = wants_behind(kids, i, wants);
    }
    wants
}

// The same behind one more kid.
fn wants_behind(kids: &Kids, i: usize, wants: bool) -> bool
    ensures { result ≡ spec.wants_behind_first wants (nodes_from i (nodes_of kids.now)) }
{
    match kids.get(i) {
        Some(kid) => wants_after(kid.kind, wants, ends_before_comma(kid)),
        None => wants,
    }
}

// The same behind a kid of this kind, which ends before a comma or not.
fn wants_after(k: Kind, wants: bool, ends: bool) -> bool
    ensures { result ≡ breaks.wants_behind k wants ends }
{
    match k {
        Kind::None => wants,
        Kind::TrailingComma => false,
        Kind::Dots => true,
        _ => ends,
    }
}
