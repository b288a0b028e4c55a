//! Which of the trees under way are nodes: types, expressions or statements.

ghost use Rattle.std.specs.Prelude.{◌≡◌, [], ◌∷◌, ◌++◌, drop, OnOk};
ghost use Rattle.hare_tree.specs.Depth as depth;
ghost use Rattle.hare_nesting.specs.Gauge as gauges;
ghost use Rattle.hare_ll_table.specs.Seen.{waited, symbols_in};
ghost use Rattle.hare_recogniser.specs.Deep.{is_too_deep};

use crate::frame::LIMIT;
use hare_automaton::{Rule, Symbol};
use hare_ll_table::Wait;
use hare_tree::{Kind, is_node};
use std::alloc::{AllocError, Global};
use std::marker::Model;

/// For the trees under way that a symbol brings to their end, the innermost first, whether each is a node.
pub fn nodes_of_symbol(symbol: Symbol) -> &'static [bool]
    ensures { result.now ≡ gauges.nodes_of_symbol symbol }
{
    match symbol {
        Symbol::Want(_) => &[],
        Symbol::Part(rule) => nodes_of_rule(rule),
        Symbol::Close(kind) => node_of_kind(kind),
    }
}

/// The same of a rule. The `let` of a `for` may yet be a binding, and the tree round a path may yet be none: they count from the token on
/// that decides it.
fn nodes_of_rule(rule: Rule) -> &'static [bool]
    ensures { result.now ≡ gauges.nodes_of_rule rule }
{
    match rule {
        Rule::PathRest(kind) => node_of_kind(kind),
        Rule::PathOrStruct => &[true, false],
        Rule::AfterForName => &[false, true],
        Rule::InBracket
        | Rule::FirstMember
        | Rule::AfterType
        | Rule::AfterSpread
        | Rule::AfterValue
        | Rule::InIndex
        | Rule::AfterIndex
        | Rule::AfterYield
        | Rule::ForHead => &[true],
        Rule::BehindComma(_) | Rule::DeclWord | Rule::UseStart => &[false],
        Rule::BehindElementComma | Rule::AfterUseName | Rule::AfterUseMark | Rule::AfterUsePart =>
            &[false, false],
        _ => &[],
    }
}

/// The same of a tree of this kind alone.
fn node_of_kind(kind: Kind) -> &'static [bool]
    ensures { result.now ≡ depth.is_node kind ∷ [] }
{
    if is_node(kind) { &[true] } else { &[false] }
}

/// The same of what is waited for. The pieces of a form bring no tree to its end, but behind the last of them.
#[tactic(auto, using(crate::proofs::Steps::Opened::nodes_in_one, crate::proofs::Steps::Opened::nodes_in_rest))]
fn nodes_of_wait(wait: Wait) -> &'static [bool]
    ensures { result.now ≡ gauges.nodes_in (symbols_in wait) }
{
    match wait {
        Wait::One(symbol) => nodes_of_symbol(symbol),
        Wait::Rest(_, kind) => node_of_kind(kind),
    }
}

/// A stack of trees under way, which knows of each whether it is a node, and how many are. Contracts see the list, with its top first.
#[derive(Drop)]
pub struct Nodes {
    items: Vec<bool>,
    count: usize,
}

impl Model for Nodes {
    ghost use Rattle.std.specs.Prelude.{◌≡◌, List, Bool, reverse};
    ghost use Rattle.hare_nesting.specs.Gauge.{opened};

    ghost Value = { List Bool };

    ghost view = { λ a. reverse a.items.items };

    ghost invariant = { λ a. a.count ≡ opened (reverse a.items.items) };
}

impl Nodes {
    /// No trees.
    #[tactic(auto, unfolding(hare_nesting::specs::Gauge::opened))]
    pub fn new(alloc: Global) -> Nodes
        ensures { result ≡ [] }
    {
        Nodes {
            items: Vec::new(alloc),
            count: 0,
        }
    }

    /// How many are nodes.
    pub fn opened(&self) -> usize
        ensures { result ≡ gauges.opened self.now }
    {
        self.count
    }

    /// Whether the innermost is a node with 256 others open round it.
    #[tactic(auto, unfolding(hare_nesting::specs::Gauge::opened))]
    pub fn is_too_deep(&self) -> bool
        ensures { result ≡ is_too_deep self.now }
    {
        matches!(self.items.last(), Some(true)) && self.count > LIMIT
    }

    /// Puts those on top that these waits bring to their end, of the first wait on top.
    pub fn push_waits(&mut self, waits: &[Wait]) -> Result<(), AllocError>
        ensures { OnOk result (self.new ≡ gauges.nodes_in (waited waits.now) ++ self.old) }
    {
        let mut left = waits.len();
        while left > 0 {
            left -= 1;
            self.push_all(nodes_of_wait(waits[left]))?;
        }
        Ok(())
    }

    /// Puts these on top, the first of them last.
    fn push_all(&mut self, nodes: &[bool]) -> Result<(), AllocError>
        ensures { OnOk result (self.new ≡ nodes.now ++ self.old) }
    {
        let mut left = nodes.len();
        while left > 0 {
            left -= 1;
            self.push(nodes[left])?;
        }
        Ok(())
    }

    /// Puts one on top.
    #[tactic(auto, using(crate::proofs::Steps::Opened::opened_le), unfolding(hare_nesting::specs::Gauge::opened))]
    fn push(&mut self, is_node: bool) -> Result<(), AllocError>
        ensures { OnOk result (self.new ≡ is_node ∷ self.old) }
    {
        self.items.push(is_node)?;
        if is_node {
            self.count += 1;
        }
        Ok(())
    }

    /// Takes so many from the top.
    pub fn pop_all(&mut self, count: usize)
        ensures { self.new ≡ drop count self.old }
    {
        for _turn in 0..count {
            self.pop();
        }
    }

    /// Takes the top.
    #[tactic(auto, unfolding(hare_nesting::specs::Gauge::opened))]
    fn pop(&mut self)
        ensures { self.new ≡ drop 1 self.old }
    {
        if let Some(true) = self.items.pop() {
            self.count -= 1;
        }
    }
}
