//! Marks of trees, and trees under way with the marks of their kids.

ghost use Rattle.std.specs.Prelude.{◌≡◌, [], ◌∷◌, ◌++◌, min, OnOk, IfSome, IfNone, MatchOption};
ghost use Rattle.hare_nesting.specs.Marks as marks;
ghost use Rattle.hare_nesting.specs.Gauge as gauges;
ghost use Rattle.hare_tree.specs.Depth as depth;
ghost use Rattle.hare_recogniser.specs.Capped.{cap_mark};
ghost use Rattle.hare_recogniser.specs.Least.{least};

use hare_tree::{Kind, is_node};
use std::alloc::{AllocError, Global};
use std::marker::Model;

/// A node with so many nodes open round it is too deep, and a left operand of this height is too high. Heights are counted up to it.
pub const LIMIT: usize = 256;

/// What the limits on depth ask of a tree that is whole.
#[derive(Clone, Copy)]
pub struct Mark {
    /// Whether it is a type, an expression or a statement.
    is_node: bool,
    /// The number of its first token, from 1.
    first: usize,
    /// How many types, expressions and statements stand one in the other in it, with itself, counted up to 256.
    height: usize,
}

impl Model for Mark {
    ghost use Rattle.hare_nesting.specs.Marks as marks;

    ghost Value = { marks.Mark };

    ghost view = { λ m. record { node = m.is_node; first = m.first; height = m.height } };

    ghost inverse = { λ m. record { is_node = m.node; first = m.first; height = m.height } };
}

impl Mark {
    /// A tree of this kind with nothing in it, at the token with this number.
    pub fn leaf(kind: Kind, number: usize) -> Mark
        ensures { result ≡ marks.leaf_mark kind number }
    {
        Mark {
            is_node: is_node(kind),
            first: number,
            height: counted(kind),
        }
    }

    /// Whether the tree is a node that begins in front of the token with this number.
    fn lies_before(self, number: usize) -> bool
        ensures { result ≡ marks.lies_before self number }
    {
        self.is_node && self.first < number
    }

    /// The tree's first token, where it is a node and so many nodes open round it are too many.
    #[tactic(auto, unfolding(hare_nesting::specs::Gauge::deep_last))]
    fn first_if_deep(self, opened: usize) -> Option<usize>
        ensures { result ≡ least (gauges.deep_last opened (self ∷ [])) }
    {
        if self.is_node && opened >= LIMIT {
            Some(self.first)
        } else {
            None
        }
    }
}

/// How much a tree of the kind adds to the height.
fn counted(kind: Kind) -> usize
    ensures { result ≡ depth.counted kind }
{
    if is_node(kind) { 1 } else { 0 }
}

/// A tree under way.
#[derive(Drop)]
pub struct Frame {
    /// The number of the token at which it has its place, from 1.
    at: usize,
    /// Its kids so far.
    kids: Vec<Mark>,
}

impl Model for Frame {
    ghost use Rattle.hare_nesting.specs.Marks as marks;

    ghost Value = { marks.Frame };

    ghost view = { λ f. record { at = f.at; kids = f.kids.items } };
}

impl Frame {
    /// A tree that has its place at the token with this number.
    pub fn begun(number: usize, kids: Vec<Mark>) -> Frame
        ensures { result ≡ record { at = number; kids = kids.items } }
    {
        Frame { at: number, kids }
    }

    /// The kids so far.
    pub fn into_kids(self) -> Vec<Mark>
        ensures { result.items ≡ self.kids }
    {
        let Frame { at: _, kids } = self;
        kids
    }

    /// The tree is the next kid.
    pub fn add(&mut self, tree: Mark) -> Result<(), AllocError>
        ensures { OnOk result (self.new ≡ record { at = self.old.at; kids = self.old.kids ++ tree ∷ [] }) }
    {
        self.kids.push(tree)?;
        Ok(())
    }

    /// These are the next kids.
    pub fn add_all(&mut self, kids: &mut Vec<Mark>) -> Result<(), AllocError>
        ensures { OnOk result (self.new ≡ record { at = self.old.at; kids = self.old.kids ++ kids.old.items }) }
    {
        self.kids.append(kids)
    }

    /// Takes out the last kid, if there is one.
    pub fn take_last(&mut self) -> Option<Mark>
        ensures found { MatchOption result (marks.last_mark self.old.kids ≡ []) (λ m. marks.last_mark self.old.kids ≡ m ∷ []) }
        ensures left { self.new ≡ record { at = self.old.at; kids = marks.but_last_mark self.old.kids } }
    {
        pop_last(&mut self.kids)
    }

    /// The tree as one that is whole, and of this kind.
    pub fn mark_as(&self, kind: Kind) -> Mark
        ensures { cap_mark result ≡ cap_mark (marks.mark_as kind self.now.at self.now.kids) }
    {
        Mark {
            is_node: is_node(kind),
            first: self.first(),
            height: counted(kind).saturating_add(highest(&self.kids)).min(LIMIT),
        }
    }

    /// The number of the tree's first token: an operator stands behind its left operand, with which the tree begins.
    pub fn first(&self) -> usize
        ensures { result ≡ marks.first_in self.now.at self.now.kids }
    {
        match self.kids.first() {
            Some(kid) if kid.lies_before(self.at) => kid.first,
            _ => self.at,
        }
    }

    /// The first token of the last kid, where it is a node and so many nodes open round it are too many.
    #[tactic(auto, using(crate::proofs::Marks::KidMarks::deep_last_some, crate::proofs::Marks::KidMarks::deep_last_none))]
    pub fn deep_kid(&self, opened: usize) -> Option<usize>
        ensures { result ≡ least (gauges.deep_last opened self.now.kids) }
    {
        match self.kids.last() {
            Some(kid) => kid.first_if_deep(opened),
            None => None,
        }
    }

    /// The token at which the tree has its place, where it is an operator that was begun just now, behind a left operand that is too high.
    pub fn high_operand(&self) -> Option<usize>
        ensures { result ≡ least (gauges.high_operand self.now.at self.now.kids) }
    {
        match self.kids.as_slice() {
            [kid] if kid.lies_before(self.at) && kid.height >= LIMIT => Some(self.at),
            _ => None,
        }
    }
}

/// The greatest height of some trees.
fn highest(trees: &[Mark]) -> usize
    ensures { result ≡ marks.highest trees.now }
{
    let mut highest: usize = 0;
    for tree in trees {
        highest = highest.max(tree.height);
    }
    highest
}

/// Takes out the last tree, if there is one.
#[tactic(auto, using(crate::proofs::Marks::KidMarks::last_mark_append, crate::proofs::Marks::KidMarks::but_last_mark_append))]
fn pop_last(trees: &mut Vec<Mark>) -> Option<Mark>
    ensures found { MatchOption result (marks.last_mark trees.old.items ≡ []) (λ m. marks.last_mark trees.old.items ≡ m ∷ []) }
    ensures left { trees.new.items ≡ marks.but_last_mark trees.old.items }
{
    match popped(trees) {
        Some(tree) => Some(tree),
        None => None,
    }
}

/// The last tree, which is taken out.
fn popped(trees: &mut Vec<Mark>) -> Option<Mark>
    ensures found { IfSome result (λ m. trees.old.items ≡ trees.new.items ++ m ∷ []) }
    ensures none { IfNone result (trees.old.items ≡ []) }
    ensures kept { IfNone result (trees.new.items ≡ []) }
{
    trees.pop()
}
