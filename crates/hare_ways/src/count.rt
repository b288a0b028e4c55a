//! How many tokens trees have.

ghost use Rattle.std.specs.Prelude.{◌≡◌, ◌+◌, ◌<◌, ◌^◌, length};
ghost use Rattle.hare_tree.specs.Node.{head, kids_of, nodes_of};
ghost use Rattle.hare_tree.specs.Forms.{form_of};
ghost use Rattle.hare_tree.specs.Judged.{nodes_from};
ghost use Rattle.hare_tree.specs.Spell as spell;
ghost use Rattle.hare_ways.specs.Breaks as breaks;
ghost use Rattle.hare_tree.specs.declared.kind.Kind.{Kind};
ghost use Rattle.hare_ways.specs.Parts as spec;
ghost use Rattle.hare_ways.specs.Walk.{mark_ways};
ghost use Rattle.hare_ways.specs.Counts as counts;

use crate::kinds::{is_fixed, stands_alone};
use crate::part::{Part, kid_behind, part_of};
use crate::single::is_path_mark;
use hare_tree::{Kids, Lead, Own, Sign, Tree, form_of};

// The number of the first of these signs of a tree's form among tokens, where the tree's tokens stand behind `n` others; of the token
// behind the tree where it has no such sign.
pub fn sign_at(s: Sign, t: &Tree, n: usize) -> usize
    requires { n + length (spell.spell 0 t.now) < 2 ^ 32 }
    ensures { result ≡ breaks.sign_at s (head t.now) (form_of (head t.now).kind) n (spell.kids_spelled 0 t.now) }
{
    let form = form_of(t.kind);
    let mut count = n;
    let mut kid = 0;
    for j in 0..form.len() {
        if is_fixed(s, form[j]) {
            return count;
        }
        let part = part_of(form[j], t.text.bytes());
        count += count_part(t, part, kid);
        kid = kid_behind(part, kid, &t.kids);
    }
    count
}

// How many tokens a tree has.
#[cycle(count)]
fn count_tree(t: &Tree) -> usize
    requires { length (spell.spell 0 t.now) < 2 ^ 32 }
    ensures { result ≡ length (spell.spell 0 t.now) }
{
    let form = form_of(t.kind);
    let mut count = 0;
    let mut kid = 0;
    for j in 0..form.len() {
        let part = part_of(form[j], t.text.bytes());
        count += count_part(t, part, kid);
        kid = kid_behind(part, kid, &t.kids);
    }
    count
}

// How many tokens a part of a tree's form has, in front of which the kids from the `i`th on are left.
#[cycle(count)]
fn count_part(t: &Tree, part: Part, i: usize) -> usize
    requires { length (spec.part_tokens (head t.now) part (spell.spells 0 (nodes_from i (kids_of t.now)))) < 2 ^ 32 }
    ensures { result ≡ length (spec.part_tokens (head t.now) part (spell.spells 0 (nodes_from i (kids_of t.now)))) }
{
    match part {
        Part::Sign(_) => 1,
        Part::Own(own) => count_own(t, own),
        Part::One(lead) => count_kid(&t.kids, i, lead),
        Part::All(lead) => count_row(&t.kids, i, lead),
        Part::Listed => count_listed(&t.kids, i),
    }
}

// How many tokens the `i`th kid has, with the sign that stands with it; none where there is no such kid.
#[cycle(count)]
fn count_kid(kids: &Kids, i: usize, lead: Lead) -> usize
    requires { length (spell.one_led 0 lead (spell.spells 0 (nodes_from i (nodes_of kids.now)))) < 2 ^ 32 }
    ensures { result ≡ length (spell.one_led 0 lead (spell.spells 0 (nodes_from i (nodes_of kids.now)))) }
{
    match kids.get(i) {
        Some(kid) => {
            if stands_alone(kid.kind) {
                count_tree(kid)
            } else {
                count_tree(kid) + count_lead(lead)
            }
        }
        None => 0,
    }
}

// How many tokens all kids from one on have, each with its sign.
#[cycle(count)]
fn count_row(kids: &Kids, from: usize, lead: Lead) -> usize
    requires { length (spell.all_led 0 lead (spell.spells 0 (nodes_from from (nodes_of kids.now)))) < 2 ^ 32 }
    ensures { result ≡ length (spell.all_led 0 lead (spell.spells 0 (nodes_from from (nodes_of kids.now)))) }
{
    let mut count = 0;
    for i in from..kids.len() {
        count += count_kid(kids, i, lead);
    }
    count
}

// How many tokens all kids from one on have, with a comma before each but the first.
#[cycle(count)]
fn count_listed(kids: &Kids, from: usize) -> usize
    requires { length (spell.listed 0 (spell.spells 0 (nodes_from from (nodes_of kids.now)))) < 2 ^ 32 }
    ensures { result ≡ length (spell.listed 0 (spell.spells 0 (nodes_from from (nodes_of kids.now)))) }
{
    if kids.len() <= from {
        return 0;
    }
    count_kid(kids, from, Lead::Nothing) + count_row(kids, from + 1, Lead::Before(Sign::Comma))
}

// How many tokens a sign that stands with a kid is.
fn count_lead(lead: Lead) -> usize
    ensures { result ≡ counts.lead_count lead }
{
    match lead {
        Lead::Nothing => 0,
        Lead::Before(_) | Lead::Behind(_) => 1,
    }
}

// How many tokens of a tree are made from its text, number and suffix.
fn count_own(t: &Tree, own: Own) -> usize
    requires { length (spell.own_tokens 0 (head t.now) own) < 2 ^ 32 }
    ensures { result ≡ length (spell.own_tokens 0 (head t.now) own) }
{
    match own {
        Own::Nothing => 0,
        Own::Path => count_path(t.text.bytes()),
        Own::Label => { if t.text.bytes().is_empty() { 0 } else { 2 } }
        _ => 1,
    }
}

// How many tokens a path has.
fn count_path(text: &[u8]) -> usize
    requires { length (spell.path_tokens 0 (spell.parts text.now)) < 2 ^ 32 }
    ensures { result ≡ length (spell.path_tokens 0 (spell.parts text.now)) }
{
    let mut count = 1;
    let mut taken = false;
    for i in 0..text.len() {
        taken = is_path_mark(text, i, taken);
        count += count_mark(taken);
    }
    count
}

// How many tokens a `::` and the name behind it are, where a `::` stands there.
fn count_mark(is_mark: bool) -> usize
    ensures { (k : Kind) → result ≡ length (mark_ways k is_mark) }
{
    if is_mark { 2 } else { 0 }
}
