//! The copies of nodes.

ghost use Rattle.std.specs.Prelude.{◌≡◌, ◌+◌, min, drop, find, map, flat_map, if◌then◌else◌};
ghost use Rattle.hare_typed.specs.Typed.{typed_nodes};
ghost use Rattle.hare_typed.specs.Numbers as numbers;
ghost use Rattle.hare_typed.specs.Copies as spec;
ghost use Rattle.hare_typed.specs.Rounds.{capped};

use crate::exits::{Round, leaving_from};
use crate::typed::{Typed, TypedKids};
use hare_tree::Kind;

/// How many copies the node of a declaration has that has this number, once the deferred expressions stand where they run:
/// `docs/LANGUAGE.md` says how they are counted. Of several nodes with the number the first in check order is meant; where no numbered node
/// has it there are none. It stops at the greatest `u64`. Takes no memory. The time is linear in the size of the declaration, but for the
/// labels of what leaves blocks: each is looked for among the nodes round it.
pub fn copies(f: &Typed, node: u32) -> u64
    ensures { result ≡ min (spec.copies_of f.now node) u64.MAX }
{
    match f.kind {
        Kind::Fn => match times_in_body(f, node) {
            Some(times) => times,
            None => times_as_parameter(f, node),
        },
        Kind::Def | Kind::GlobalLet | Kind::GlobalConst => match times_in_body(f, node) {
            Some(times) => times,
            None => 0,
        },
        _ => 0,
    }
}

/// The copies of a node in the body or the value of a declaration.
fn times_in_body(f: &Typed, node: u32) -> Option<u64>
    ensures { result ≡ capped (find (spec.has_number node) (flat_map (spec.copied 1 1) (numbers.body_of f.now))) }
{
    let count = f.kids.len();
    if count == 0 {
        return None;
    }
    let body = f.kids.get(count - 1)?;
    times_in(body, node)
}

/// 1 where a parameter of a function has the number, else 0.
fn times_as_parameter(f: &Typed, node: u32) -> u64
    ensures { result ≡ spec.times_of (find (spec.has_number node) (map spec.once (numbers.parameters_of f.now))) }
{
    match f.kids.get(2) {
        Some(params) => times_among_parameters(&params.kids, node),
        None => 0,
    }
}

/// 1 where a parameter among some trees has the number, else 0.
fn times_among_parameters(kids: &TypedKids, node: u32) -> u64
    ensures { result ≡ spec.times_of (find (spec.has_number node) (map spec.once (numbers.params_among (typed_nodes kids.now)))) }
{
    for i in 0..kids.len() {
        let Some(t) = kids.get(i) else {
            return 0;
        };
        if is_param(t.kind) && t.node == node {
            return 1;
        }
    }
    0
}

/// Whether a node is a parameter.
fn is_param(k: Kind) -> bool
    ensures { result ≡ numbers.is_param k }
{
    matches!(k, Kind::Param)
}

/// Whether a node is a block or a case.
fn has_defers(k: Kind) -> bool
    ensures { result ≡ spec.has_defers k }
{
    matches!(k, Kind::Block | Kind::Case | Kind::SwitchCase)
}

/// Whether a node is a defer.
fn is_defer(k: Kind) -> bool
    ensures { result ≡ spec.is_defer k }
{
    matches!(k, Kind::Defer)
}

/// The copies of a node in a tree, for each copy of the tree.
#[cycle(times)]
fn times_in(t: &Typed, node: u32) -> Option<u64>
    ensures { result ≡ capped (find (spec.has_number node) (spec.copied 1 1 t.now)) }
{
    if let Some(times) = times_among(&t.kids, has_defers(t.kind), node) {
        return Some(times);
    }
    if t.node == node { Some(1) } else { None }
}

/// The copies of a node in the kids of a tree, for each copy of the tree.
#[cycle(times)]
fn times_among(kids: &TypedKids, is_block: bool, node: u32) -> Option<u64>
    ensures { result ≡ capped (find (spec.has_number node) (spec.copied_each is_block 1 (typed_nodes kids.now))) }
{
    for i in 0..kids.len() {
        let Some(t) = kids.get(i) else {
            return None;
        };
        if let Some(times) = times_in_kid(t, kids, i + 1, is_block, node) {
            return Some(times);
        }
    }
    None
}

/// The copies of a node in a kid of a tree, behind which stand those from a place on, for each copy of the tree.
#[cycle(times)]
fn times_in_kid(
    t: &Typed,
    kids: &TypedKids,
    behind: usize,
    is_block: bool,
    node: u32,
) -> Option<u64>
    ensures { result ≡ capped (find (spec.has_number node)
        (spec.copied 1 (if is_block then spec.deferred_copies 1 (typed_nodes (drop behind kids.now)) else 1) t.now)) }
{
    if !is_block || !is_defer(t.kind) {
        return times_in(t, node);
    }
    if let Some(times) = times_among(&t.kids, false, node) {
        let runs = leaving_from(kids, behind, &Round::Nothing).saturating_add(1);
        return Some(times.saturating_mul(runs));
    }
    if t.node == node { Some(1) } else { None }
}
