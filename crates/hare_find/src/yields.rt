//! Values that are handed to a block or a case from inside it, at the turn of a node.

ghost use Rattle.std.specs.Prelude.{◌≡◌, [], true, List, filter, map, take, OnOk};
ghost use Rattle.hare_tree.specs.Node.{head};
ghost use Rattle.hare_types.specs.Store.{Store};
ghost use Rattle.hare_typed.specs.Copies.{has_defers as takes_yields};
ghost use Rattle.hare_typed.specs.Numbers.{number_of};
ghost use Rattle.hare_typed.specs.Order.{tree_from_front};
ghost use Rattle.hare_typed.specs.Typed.{typed_nodes};
ghost use Rattle.hare_flow.specs.Seen.{given_of};
ghost use Rattle.hare_rules.specs.Context.{Open};
ghost use Rattle.hare_rules.specs.Finished.{bare};
ghost use Rattle.hare_rules.specs.Flow.{is_at, yielded, add_yield, yields_after};
ghost use Rattle.rule_judge.specs.Defined.{AreDefinedTrees};
ghost use Rattle.hare_find.specs.Defined.{AreDefinedYielded};
ghost use Rattle.hare_find.specs.Levels.{AreLevels};
ghost use Rattle.hare_find.specs.Yields.{IsDefinedOption};

use hare_flow::{Handed, Seen};
use hare_tree::{Kind, Tree};
use hare_typed::TypedKids;
use rule_judge::{is_there, place_at, type_at};
use std::alloc::{AllocError, Global};

/// To which blocks and cases values go at a node, by how many labels stand round them.
#[derive(Clone, Copy, Debug, PartialEq, Eq)]
pub struct Levels {
    /// How many labels stand round the node: what was handed to it is known by that.
    pub own: usize,
    /// How many labels stand round the block or case that the node means, where it is a `yield` that means one.
    pub meant: Option<usize>,
    /// How many values had been handed on when the node began: none of them was handed to it.
    pub from: usize,
}

/// The number of the first kid.
fn first_number(kids: &TypedKids) -> u32
    ensures { result ≡ number_of (tree_from_front 0 kids.now) }
{
    match kids.get(0) {
        Some(kid) => kid.node,
        None => 0,
    }
}

/// The value that a `yield` hands on; without one, the void that its absent part has, at the `yield`.
fn handed(node: &Tree, kids: &TypedKids) -> Handed
    ensures value { given_of result ≡ yielded (head node.now) (tree_from_front 0 (map bare kids.now)) }
    ensures defined { (s : Store) → AreDefinedTrees s (typed_nodes kids.now) → IsDefinedOption s result.ty }
{
    if is_there(kids, 0) {
        return Handed {
            place: place_at(kids, 0),
            ty: Some(type_at(kids, 0)),
            node: Some(first_number(kids)),
        };
    }
    Handed {
        place: node.place,
        ty: None,
        node: None,
    }
}

/// Hands on the value of a `yield`, where it means a block or a case.
fn hand_on(
    seen: &mut Seen,
    node: &Tree,
    kids: &TypedKids,
    meant: Option<usize>,
) -> Result<(), AllocError>
    ensures seen { OnOk result (seen.new ≡ record seen.old
        { yields = add_yield (head node.now) (map bare kids.now) meant seen.old.yields }) }
    ensures defined { (s : Store) → AreDefinedTrees s (typed_nodes kids.now) → AreDefinedYielded s seen.old.yields →
        OnOk result (AreDefinedYielded s seen.new.yields) }
{
    match meant {
        Some(level) => seen.hand(level, handed(node, kids)),
        None => Ok(()),
    }
}

/// Whether a value can be handed to a node of this kind.
fn is_handed_to(k: Kind) -> bool
    ensures { result ≡ takes_yields k }
{
    matches!(k, Kind::Block | Kind::Case | Kind::SwitchCase)
}

/// Hands on what a node hands on, and takes away what was handed to it.
pub(crate) fn pass_yields(
    alloc: Global,
    seen: &mut Seen,
    node: &Tree,
    kids: &TypedKids,
    levels: &Levels,
) -> Result<(), AllocError>
    requires { takes_yields (head node.now).kind ≡ true → filter (is_at levels.now.own) (take levels.now.from seen.old.yields) ≡ [] }
    ensures yields { OnOk result ((ls : List Open) → AreLevels ls (head node.now) levels.now →
        seen.new ≡ record seen.old { yields = yields_after (head node.now).kind ls (head node.now) (map bare kids.now) seen.old.yields }) }
    ensures rest { OnOk result (seen.new ≡ record seen.old { yields = seen.new.yields }) }
    ensures defined { (s : Store) → AreDefinedTrees s (typed_nodes kids.now) → AreDefinedYielded s seen.old.yields →
        OnOk result (AreDefinedYielded s seen.new.yields) }
{
    if is_handed_to(node.kind) {
        return seen.take(alloc, levels.from, levels.own);
    }
    match node.kind {
        Kind::Yield => hand_on(seen, node, kids, levels.meant),
        _ => Ok(()),
    }
}
