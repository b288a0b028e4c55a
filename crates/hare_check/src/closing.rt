//! The end of a node's turn.

ghost use Rattle.std.specs.Prelude.{◌≡◌, ℕ, List, ◌∷◌, length, reverse, IfOk, OnOk};
ghost use Rattle.hare_tree.specs.declared.kind.Kind.TheVariants as ki;
ghost use Rattle.hare_tree.specs.Node.{head};
ghost use Rattle.hare_types.specs.Store.{Store};
ghost use Rattle.hare_rules.specs.Context.{Context};
ghost use Rattle.hare_rules.specs.Values as values;
ghost use Rattle.hare_find.specs.Levels.{AreLevels};
ghost use Rattle.hare_walk.specs.Grown.{IsGrown};
ghost use Rattle.hare_walk.specs.Spots.{Spot, spot};
ghost use Rattle.hare_walk.specs.Walks.{IsTurned, IsInHand};
ghost use Rattle.hare_check.specs.Keeps.{IsKeptTree};
ghost use Rattle.hare_check.specs.Nodes.{program_of, above_of, Walks, IsAtNode, IsFindingOf, IsUnder};

use crate::meanings::{own_meaning, path_meaning};
use crate::numbers::next_number;
use crate::walker::Walker;
use hare_find::{Finding, Found, Levels, close, named_value};
use hare_tree::{Kind, Meaning, Tree};
use hare_typed::{Const, Typed, TypedKids};
use hare_types::TypeStore;
use std::alloc::AllocError;

impl<'a> Walker<'a> {
    /// How many values had been yielded when the tree at hand began.
    pub(crate) fn from(&self) -> usize
        ensures { (n : ℕ) (ns : List ℕ) → reverse self.now.begun ≡ n ∷ ns → result ≡ n }
    {
        match self.begun.as_slice().last() {
            Some(n) => *n,
            None => 0,
        }
    }

    /// To which blocks and cases values go at the node at hand.
    fn levels(&self, node: &Tree) -> Levels
        ensures levels { AreLevels (above_of self.now).inside.labels (head node.now) result }
        ensures from { (n : ℕ) (ns : List ℕ) → reverse self.now.begun ≡ n ∷ ns → result.from ≡ n }
    {
        let meant = match node.kind {
            Kind::Yield => self.standing.yield_level(node.text.bytes()),
            _ => None,
        };
        Levels {
            own: self.standing.level(),
            meant,
            from: self.from(),
        }
    }

    /// The constant of the def that the node at hand means, where it is a path; none where it means none.
    fn named(&self, node: &Tree, meaning: Meaning) -> Result<Const, AllocError>
        ensures { IfOk result (λ v. (c : Context) → c.setting.decls ≡ self.now.decls.now → c.head ≡ head node.now →
            ((head node.now).kind ≡ ki.Path → c.meaning ≡ meaning) → v ≡ values.value_named c) }
    {
        match node.kind {
            Kind::Path => named_value(self.alloc, self.decls, meaning),
            _ => Ok(Const::Absent),
        }
    }

    /// Closes the turn of the node at hand, of which this has been found. The answer is its tree, over the kids with what is settled of
    /// them.
    pub(crate) fn close(
        &mut self,
        s: &mut TypeStore,
        node: &Tree,
        mut kids: TypedKids,
        found: &Finding,
    ) -> Result<Typed, AllocError>
        requires node { IsAtNode s.old self.old node.now kids }
        requires found { IsFindingOf s.old self.old node.now kids found.now }
        ensures ok { IfOk result (λ x. IsTurned (program_of self.old) s.new (above_of self.old) (head node.now) kids self.old.seen x
            self.new.seen) }
        ensures hand { IfOk result (λ x. IsInHand self.new.seen x) }
        ensures walks { OnOk result ((ps : List Spot) → Walks s.old (spot (head node.now).kind (length kids) ∷ ps) self.old →
            Walks s.new (spot (head node.now).kind 0 ∷ ps) self.new) }
        ensures kept { IfOk result (λ x. (r : Store) → IsGrown s.new r → IsKeptTree r x) }
        ensures same { IsUnder self.old self.new }
        ensures grown { IsGrown s.old s.new }
    {
        let _law = s.declarations();
        let meaning = own_meaning(self.names, node);
        let meant = path_meaning(self.names, node, &kids);
        let value = self.named(node, meaning)?;
        let number = next_number(&self.seen)?;
        let levels = self.levels(node);
        let first = self.standing.first();
        close(
            self.alloc,
            s,
            &mut self.seen,
            &mut self.told,
            node,
            &mut kids,
            first,
            &levels,
            found,
        )?;
        let _closed = s.declarations();
        let mark = Found {
            node: number,
            ty: found.ty,
            own: found.own,
            meaning,
            value,
        };
        let tree = self.tree(s, node, kids, mark, meant)?;
        Ok(tree)
    }
}
