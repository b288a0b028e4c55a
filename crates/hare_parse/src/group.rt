//! Trees under way.

ghost use Rattle.std.specs.Prelude.{◌≡◌, [], ◌∷◌, ◌++◌, ◌+◌, ◌≤◌, ℕ, IfNone, IfOk, IfSome, OnOk, MatchOption};
ghost use Rattle.hare_tree.specs.Depth.{height, greatest_height, counted};
ghost use Rattle.hare_tree.specs.Node.{branch, nodes_of};
ghost use Rattle.hare_automaton.specs.Engine as engine;
ghost use Rattle.hare_parse.specs.Heights.{IsBound};

use hare_ll_table::Spare;
use hare_tree::{Kids, Kind, Place, Suffix, Token, Tree, Word, is_node};
use std::alloc::{AllocError, Global};
use std::marker::Model;

/// Where the heights of trees are no longer counted.
const UNCOUNTED: u16 = 257;

/// A tree of which the kind is not yet known, with the kids so far.
#[derive(Drop)]
pub struct Group {
    number: u128,
    text: Word,
    kids: Vec<Tree>,
    place: Place,
    suffix: Suffix,
    /// The kids are no higher than this, up to 256.
    highest: u16,
    /// The last kid is no higher than this, up to 256.
    last: u16,
}

impl Model for Group {
    ghost use Rattle.std.specs.Coded.{codes};
    ghost use Rattle.hare_tree.specs.contracts.kind.Kind as k;
    ghost use Rattle.hare_tree.specs.contracts.place.Place as p;
    ghost use Rattle.hare_tree.specs.contracts.token.Suffix as s;
    ghost use Rattle.hare_tree.specs.Node.{node_code, nodes_of};
    ghost use Rattle.hare_tree.specs.Depth.{greatest_height};
    ghost use Rattle.hare_parse.specs.Heights.{IsBound};
    ghost use Rattle.hare_automaton.specs.Engine as machine;

    ghost Value = { machine.Group };

    ghost coded = { Prim.hlevel (
      codes,
      p.the_row.coded,
      s.the_row.coded,
      node_code
          (Prim.hlevel (codes, k.the_row.coded, p.the_row.coded, s.the_row.coded)),
    ) };

    ghost view = { λ g. record {
      place = g.place;
      text = g.text;
      number = g.number;
      suffix = g.suffix;
      kids = g.kids.items;
    } };

    ghost invariant = { λ g. IsBound g.highest (greatest_height (nodes_of g.kids.items)) ×
        IsBound g.last (greatest_height (nodes_of (machine.last_kid g.kids.items))) };
}

impl Group {
    /// A tree that begins here.
    pub fn begun(alloc: Global, place: Place, kids: Vec<Tree>) -> Group
        requires { kids.items ≡ [] }
        ensures { result ≡ engine.begun place [] }
    {
        Group {
            number: 0,
            text: Word::new(alloc),
            kids,
            place,
            suffix: Suffix::None,
            highest: 0,
            last: 0,
        }
    }

    /// A tree that begins here, whose first kid is the last of this one.
    pub fn split_last(&mut self, spare: &mut Spare<Tree>, place: Place) -> Result<Group, AllocError>
        ensures begun { IfOk result (λ g. g ≡ engine.begun place (engine.last_kid self.old.kids)) }
        ensures left { OnOk result (self.new ≡ engine.with_kids self.old (engine.but_last self.old.kids)) }
    {
        let last = self.last;
        let kids = self.take_last_alone(spare)?;
        Ok(Group {
            number: 0,
            text: Word::new(spare.alloc()),
            kids,
            place,
            suffix: Suffix::None,
            highest: last,
            last,
        })
    }

    /// The kids so far.
    pub fn into_kids(self) -> Vec<Tree>
        ensures { result.items ≡ self.kids }
    {
        let Group {
            number: _,
            text: _,
            kids,
            place: _,
            suffix: _,
            highest: _,
            last: _,
        } = self;
        kids
    }

    /// The kids so far are no higher than this, up to 256.
    pub fn highest(&self) -> usize
        ensures { IsBound result (greatest_height (nodes_of self.now.kids)) }
    {
        self.highest as usize
    }

    /// The tree is whole, and of this kind, and it is the next kid of the other. The memory of the list of its kids goes to the spare
    /// lists.
    pub fn close_into(
        self,
        spare: &mut Spare<Tree>,
        kind: Kind,
        outer: &mut Group,
    ) -> Result<(), AllocError>
        ensures { OnOk result (outer.new ≡ engine.with_kids outer.old
            (outer.old.kids ++ branch (engine.head_in kind self) (nodes_of self.kids) ∷ [])) }
    {
        let Group {
            number,
            text,
            mut kids,
            place,
            suffix,
            highest,
            last: _,
        } = self;
        let taken = Kids::taken(spare.alloc(), &mut kids)?;
        spare.keep(kids)?;
        let tree = Tree {
            number,
            text,
            kids: taken,
            place,
            kind,
            suffix,
        };
        outer.add(tree, above(kind, highest))
    }

    /// The tree is the next kid. It is no higher than the number, up to 256.
    pub fn add(&mut self, tree: Tree, high: u16) -> Result<(), AllocError>
        requires { IsBound high (height tree) }
        ensures { OnOk result (self.new ≡ engine.with_kids self.old (self.old.kids ++ tree ∷ [])) }
    {
        self.kids.push(tree)?;
        self.highest = self.highest.max(high);
        self.last = high;
        Ok(())
    }

    /// The kids of the other are the next kids.
    pub fn lift(&mut self, spare: &mut Spare<Tree>, inner: Group) -> Result<(), AllocError>
        ensures { OnOk result (self.new ≡ engine.with_kids self.old (self.old.kids ++ inner.kids)) }
    {
        let highest = self.highest.max(inner.highest);
        let mut kids = inner.into_kids();
        self.kids.append(&mut kids)?;
        self.highest = highest;
        self.last = highest;
        spare.keep(kids)
    }

    /// Takes out the last kid, in a list of its own, which is empty where there is none.
    fn take_last_alone(&mut self, spare: &mut Spare<Tree>) -> Result<Vec<Tree>, AllocError>
        ensures alone { IfOk result (λ kids. kids.items ≡ engine.last_kid self.old.kids) }
        ensures left { OnOk result (self.new ≡ engine.with_kids self.old (engine.but_last self.old.kids)) }
    {
        let mut kids = spare.take();
        match self.take_last() {
            Some(tree) => {
                kids.push(tree)?;
                Ok(kids)
            }
            None => Ok(kids),
        }
    }

    /// Takes out the last kid, if there is one.
    pub fn take_last(&mut self) -> Option<Tree>
        ensures found { MatchOption result (engine.last_kid self.old.kids ≡ []) (λ t. engine.last_kid self.old.kids ≡ t ∷ []) }
        ensures left { self.new ≡ engine.with_kids self.old (engine.but_last self.old.kids) }
    {
        self.last = self.highest;
        pop_last(&mut self.kids)
    }

    /// Takes the token's text, number and suffix.
    pub fn take_text(&mut self, alloc: Global, token: &Token) -> Result<(), AllocError>
        ensures { OnOk result (self.new ≡ record
            { place = self.old.place; text = token.now.text; number = token.now.number; suffix = token.now.suffix; kids = self.old.kids }) }
    {
        self.text = Word::copy(alloc, token.text.bytes())?;
        self.number = token.number;
        self.suffix = token.suffix;
        Ok(())
    }

    /// Puts the token's text behind the text so far.
    pub fn join_text(&mut self, token: &Token) -> Result<(), AllocError>
        ensures { OnOk result (self.new ≡ record {
          place = self.old.place;
          text = self.old.text ++ token.now.text;
          number = self.old.number;
          suffix = self.old.suffix;
          kids =
              self.old.kids;
        }) }
    {
        self.text.extend(token.text.bytes())
    }
}

/// How high a tree of the kind is at the most whose kids are no higher than this, up to 256.
#[tactic(auto, using(crate::proofs::Kids::Heights::bound_counted, crate::proofs::Kids::Heights::bound_full, crate::proofs::Kids::Heights::bound_uncounted))]
fn above(kind: Kind, highest: u16) -> u16
    ensures { (h : ℕ) → IsBound highest h → IsBound result (counted kind + h) }
{
    if !is_node(kind) {
        highest
    } else if highest < UNCOUNTED {
        highest + 1
    } else {
        highest
    }
}

/// Takes out the last tree, if there is one.
#[tactic(auto, using(crate::proofs::Kids::LastKid::last_kid_append, crate::proofs::Kids::LastKid::but_last_append))]
fn pop_last(trees: &mut Vec<Tree>) -> Option<Tree>
    ensures found { MatchOption result (engine.last_kid trees.old.items ≡ []) (λ t. engine.last_kid trees.old.items ≡ t ∷ []) }
    ensures left { trees.new.items ≡ engine.but_last trees.old.items }
{
    match popped(trees) {
        Some(tree) => Some(tree),
        None => None,
    }
}

/// The last tree, which is taken out.
fn popped(trees: &mut Vec<Tree>) -> Option<Tree>
    ensures found { IfSome result (λ t. trees.old.items ≡ trees.new.items ++ t ∷ []) }
    ensures none { IfNone result (trees.old.items ≡ []) }
    ensures kept { IfNone result (trees.new.items ≡ []) }
{
    trees.pop()
}
