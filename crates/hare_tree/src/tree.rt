//! Trees, which contracts see as plain data without addresses.

ghost use Rattle.std.specs.Prelude.{◌≡◌, ◌≤◌, ◌<◌, [], ◌∷◌, ◌++◌, length, slice_get, IfSome, IfNone, IfOk, OnOk, OnErr};
ghost use Rattle.hare_tree.specs.Node.{nodes_of, size_of, sizes_of};

use crate::kind::Kind;
use crate::place::Place;
use crate::token::Suffix;
use crate::word::Word;
use std::alloc::{AllocError, Global};
use std::marker::Model;

/// A list of trees in the order of the source.
#[derive(Drop)]
#[cycle(tree)]
pub struct Kids {
    trees: Vec<Tree>,
}

impl Model for Kids {
    ghost use Rattle.std.specs.Prelude.{List};
    ghost use Rattle.std.specs.Coded.{coded_list, codes};
    ghost use Rattle.hare_tree.specs.contracts.kind.Kind as k;
    ghost use Rattle.hare_tree.specs.contracts.place.Place as p;
    ghost use Rattle.hare_tree.specs.contracts.token.Suffix as s;
    ghost use Rattle.hare_tree.specs.Node.{Node, sizes_of, nodes_of, node_code, most_le-sizes_of};

    ghost Value = { List Node };

    ghost coded = { coded_list (node_code (Prim.hlevel (codes, k.the_row.coded, p.the_row.coded, s.the_row.coded))) };

    ghost view = { λ a. a.trees.items };

    ghost size = { λ ts. sizes_of (nodes_of ts) };

    ghost use Rattle.std.proofs.Common.{arith};

    ghost size_decreases = { λ a h. Prim.omega (arith, most_le-sizes_of a.trees.items) };
}

/// A tree: one form of the grammar with what stands in it.
#[derive(Drop)]
#[cycle(tree)]
pub struct Tree {
    /// The value of a number or of a rune; else 0.
    pub number: u128,
    /// What the form's own token says: a name, a path, an operator, the bytes of a string; else nothing.
    pub text: Word,
    /// The parts, as the form has them. A part that is not there is a tree of kind None.
    pub kids: Kids,
    /// The form's operator, or else its first token, in the source.
    pub place: Place,
    /// The form.
    pub kind: Kind,
    /// The suffix of a number; else None.
    pub suffix: Suffix,
}

impl Model for Tree {
    ghost use Rattle.std.specs.Coded.{codes};
    ghost use Rattle.hare_tree.specs.contracts.kind.Kind as k;
    ghost use Rattle.hare_tree.specs.contracts.place.Place as p;
    ghost use Rattle.hare_tree.specs.contracts.token.Suffix as s;
    ghost use Rattle.hare_tree.specs.Node.{Node, branch, size_of, nodes_of, node_code};

    ghost Value = { Node };

    ghost coded = { node_code (Prim.hlevel (codes, k.the_row.coded, p.the_row.coded, s.the_row.coded)) };

    ghost view = { λ a. branch record {
      kind = a.kind;
      place = a.place;
      text = a.text;
      number = a.number;
      suffix = a.suffix;
    } (nodes_of a.kids) };

    ghost size = { size_of };
}

/// The tree of a file.
#[derive(Drop)]
pub struct FileTree {
    /// The file's number in the order of the command line, from 0.
    pub file: u32,
    /// The imports, in the order of the source.
    pub uses: Kids,
    /// The declarations, in the order of the source.
    pub decls: Kids,
}

impl Kids {
    /// No trees.
    pub fn new(alloc: Global) -> Kids
        ensures { result ≡ [] }
    {
        Kids {
            trees: Vec::new(alloc),
        }
    }

    /// The trees of a list, which are taken out of it. They take just the memory that they need. Nothing changes where memory is short.
    pub fn taken(alloc: Global, trees: &mut Vec<Tree>) -> Result<Kids, AllocError>
        ensures value { IfOk result (λ kids. kids ≡ trees.old.items) }
        ensures ok { OnOk result (trees.new.items ≡ []) }
        ensures err { OnErr result (trees.new.items ≡ trees.old.items) }
    {
        let mut own = Vec::with_capacity(alloc, trees.len())?;
        own.append(trees)?;
        Ok(Kids { trees: own })
    }

    /// Puts a tree at the end. Nothing changes where memory is short.
    pub fn push(&mut self, t: Tree) -> Result<(), AllocError>
        ensures ok { OnOk result (self.new ≡ self.old ++ t ∷ []) }
        ensures err { OnErr result (self.new ≡ self.old) }
    {
        self.trees.push(t)?;
        Ok(())
    }

    /// How many trees there are.
    pub fn len(&self) -> usize
        ensures { result ≡ length self.now }
    {
        self.trees.len()
    }

    /// The tree at a place of the list, from 0; none past the end. It is smaller than the list, so that a walk over trees ends.
    pub fn get(&self, i: usize) -> Option<&Tree>
        ensures none { IfNone result (length self.now ≤ i) }
        ensures found { IfSome result (λ t. slice_get self.now i ≡ Some t.now) }
        ensures smaller { IfSome result (λ t. size_of t.now < sizes_of (nodes_of self.now)) }
    {
        self.trees.get(i)
    }
}
