//! How many nodes are finished and how many bindings have begun, as a walk goes on.

ghost use Rattle.std.specs.Prelude.{◌≡◌, ◌+◌, true, IfOk, OnOk};
ghost use Rattle.hare_tree.specs.Node.{nodes_of};
ghost use Rattle.hare_typed.specs.Bindings as bindings;
ghost use Rattle.hare_rules.specs.Above as above;
ghost use Rattle.hare_walk.specs.Counts as counts;

use hare_tree::{Kids, Kind, Tree};
use std::alloc::AllocError;

/// Where a kid of a node stands.
#[derive(Clone, Copy, Debug, PartialEq, Eq)]
pub struct At {
    /// How many nodes are finished when the kid begins.
    pub begins: u32,
    /// How many bindings of the declaration begin before the kid.
    pub first: u32,
    /// The number that the node gets of which it is a kid, where a jump can mean that node; else anything.
    pub number: u32,
}

/// What has been counted so far.
#[derive(Clone, Copy, Debug, PartialEq, Eq)]
pub(crate) struct Counts {
    /// How many nodes are finished.
    pub(crate) nodes: u32,
    /// How many bindings of the declaration have begun.
    pub(crate) bindings: u32,
}

/// Whether a tree of this kind is a binding.
fn begins_binding(k: Kind) -> bool
    ensures { result ≡ bindings.begins_binding k }
{
    matches!(
        k,
        Kind::Param | Kind::Let | Kind::Const | Kind::Binding | Kind::PatternLet
    )
}

/// One more than a number; a number that is too large is answered as want of memory.
fn one_more(n: u32) -> Result<u32, AllocError>
    ensures { IfOk result (λ m. m ≡ n + 1) }
{
    match n.checked_add(1) {
        Some(m) => Ok(m),
        None => Err(AllocError),
    }
}

impl Counts {
    /// Counts a tree of this kind that begins.
    pub(crate) fn begin(&mut self, k: Kind) -> Result<(), AllocError>
        ensures { OnOk result (self.new ≡ record self.old { bindings = self.old.bindings + bindings.own_bindings k }) }
    {
        if begins_binding(k) {
            self.bindings = one_more(self.bindings)?;
        }
        Ok(())
    }

    /// Counts a node that is finished.
    pub(crate) fn finish(&mut self) -> Result<(), AllocError>
        ensures { OnOk result (self.new ≡ record self.old { nodes = self.old.nodes + 1 }) }
    {
        self.nodes = one_more(self.nodes)?;
        Ok(())
    }
}

/// Whether a jump can mean a tree of this kind.
fn is_labelled(k: Kind) -> bool
    ensures { result ≡ counts.is_labelled k }
{
    matches!(
        k,
        Kind::For | Kind::ForEach | Kind::Block | Kind::Case | Kind::SwitchCase
    )
}

/// How many trees stand in a tree, itself among them, in front of which so many were counted.
#[cycle(trees)]
fn count_tree(n: u32, t: &Tree) -> Result<u32, AllocError>
    ensures { IfOk result (λ m. m ≡ n + above.trees_in t.now) }
{
    count_trees(one_more(n)?, &t.kids)
}

/// How many trees stand in some, in front of which so many were counted.
#[cycle(trees)]
fn count_trees(n: u32, kids: &Kids) -> Result<u32, AllocError>
    ensures { IfOk result (λ m. m ≡ n + above.trees_in_each (nodes_of kids.now)) }
{
    let mut counted = n;
    for i in 0..kids.len() {
        let Some(kid) = kids.get(i) else {
            unreachable!();
        };
        counted = count_tree(counted, kid)?;
    }
    Ok(counted)
}

/// The number that a node of this kind gets that begins behind so many finished ones, where a jump can mean it. It is asked for once a
/// node, and goes over its tree.
pub(crate) fn label_number(begins: u32, k: Kind, kids: &Kids) -> Result<u32, AllocError>
    ensures { IfOk result (λ n. counts.is_labelled k ≡ true → n ≡ begins + above.trees_in_each (nodes_of kids.now)) }
{
    if !is_labelled(k) {
        return Ok(0);
    }
    count_trees(begins, kids)
}
