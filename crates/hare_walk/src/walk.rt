//! What a walk over a body asks of the typing rules.

use crate::counts::At;
use hare_tree::{Fault, Kids, Stop, Tree};
use hare_typed::{Typed, TypedKids};
use hare_types::TypeStore;
use std::alloc::{AllocError, Global};

/// A walk over a body, from kids to parent: what stands over the tree at hand, what has been seen so far, and the rules by which a node is
/// judged. The order in which nodes come is that of `check_by`.
///
/// Each call may put types into the store, so that its answer holds in every later one.
pub trait Walk {
    ghost use Rattle.std.specs.Prelude.{◌≡◌, ◌+◌, List, ◌∷◌, map, length, drop, slice_get, Some, OnOk, IfOk, IfErr};
    ghost use Rattle.hare_tree.specs.declared.kind.Kind.{Kind};
    ghost use Rattle.hare_tree.specs.Node.{head, kids_of, nodes_of};
    ghost use Rattle.hare_types.specs.Store.{Store};
    ghost use Rattle.hare_types.specs.Sound.{IsStore};
    ghost use Rattle.hare_typed.specs.Coats.{coat};
    ghost use Rattle.hare_rules.specs.Context.{Setting};
    ghost use Rattle.hare_rules.specs.Above.{Above};
    ghost use Rattle.hare_rules.specs.Flow.{Flow, all_settled};
    ghost use Rattle.hare_rules.specs.Finished.{bare};
    ghost use Rattle.hare_walk.specs.Counts.{IsAt};
    ghost use Rattle.hare_walk.specs.Grown.{IsGrown};
    ghost use Rattle.hare_walk.specs.Spots.{Spot, spot, one_more};
    ghost use Rattle.hare_typed.specs.Typed.{TypedNode, typed_nodes};
    ghost use Rattle.hare_typed.specs.Erased.{erase_each};
    ghost use Rattle.hare_walk.specs.Walks.{IsPart, Each, IsInHand, AreInHand, IsTurned, IsTurnedBack, IsOver, IsBefore, AreInferred};

    /// What is known of the program, over a store.
    ghost setting: { Self → Store → Setting };

    /// What stands over the tree at hand.
    ghost above: { Self → Above };

    /// What stands over the trees round it, the innermost first.
    ghost outer: { Self → List Above };

    /// What has been seen.
    ghost flow: { Self → Flow };

    /// What it relies on of itself, with the store, at the tree at hand and those round it, the innermost first.
    ghost Ready: { Self → Store → List Spot → Type 0 };

    /// What it relies on of each tree that has been judged.
    ghost Keeps: { Store → TypedNode → Type 0 };

    /// Goes on to the kid behind those that are done, which stands there: the walk stands in the kid, and behind that in the node as
    /// before.
    ///
    /// The conditions are that these are the kids of the node, of which those that are done were judged and carry what is settled by now;
    /// that `kid` is the next, and `at` says where it stands; that the node is shaped, or stands in the place of a part that is left out;
    /// and that what the walk relies on of itself, at the node, and of each tree that has been judged, holds. It fails for want of memory
    /// alone.
    fn enter(
        &mut self,
        s: &mut TypeStore,
        node: &Tree,
        done: &TypedKids,
        kids: &Kids,
        kid: &Tree,
        at: At,
    ) -> Result<(), AllocError>
        requires whole { kids_of node.now ≡ nodes_of kids.now }
        requires next { slice_get kids.now (length done.now) ≡ Some kid.now }
        requires at { IsAt (above self.old) (head node.now) (map bare done.now) kid.now (nodes_of (drop (length done.now + 1) kids.now))
            at }
        requires ready { (ps : List Spot) × Ready self.old s.old (spot (head node.now).kind (length done.now) ∷ ps) }
        requires part { IsPart node.now }
        requires hand { AreInHand (flow self.old) done.now }
        requires kept { Each (Keeps s.old) done.now }
        ensures over { IfOk result (λ _. IsOver (setting self.old) s.new (above self.old) (head node.now) done.now kid.now
            (nodes_of (drop (length done.now + 1) kids.now)) (above self.new)) }
        ensures seen { IfOk result (λ _. IsBefore (setting self.old) s.new (above self.old) (head node.now) done.now (flow self.old)
            (flow self.new)) }
        ensures ready { OnOk result ((ps : List Spot) → Ready self.old s.old (spot (head node.now).kind (length done.now) ∷ ps) →
            Ready self.new s.new (spot (head kid.now).kind 0 ∷ spot (head node.now).kind (length done.now) ∷ ps)) }
        ensures outer { OnOk result (outer self.new ≡ above self.old ∷ outer self.old) }
        ensures setting { setting self.new ≡ setting self.old }
        ensures grown { IsGrown s.old s.new }
        ensures sound { IsStore s.new };

    /// Goes back to the node round the tree at hand, which is done.
    fn leave(&mut self)
        ensures above { (a : Above) (rest : List Above) → outer self.old ≡ a ∷ rest → above self.new ≡ a }
        ensures outer { (a : Above) (rest : List Above) → outer self.old ≡ a ∷ rest → outer self.new ≡ rest }
        ensures ready { (s : Store) (k : Kind) (p : Spot) (ps : List Spot) → Ready self.old s (spot k 0 ∷ p ∷ ps) →
            Ready self.new s (one_more p ∷ ps) }
        ensures flow { flow self.new ≡ flow self.old }
        ensures setting { setting self.new ≡ setting self.old };

    /// Judges the tree at hand, all of whose kids have been judged. Behind that the walk stands in it as before it began.
    ///
    /// The conditions are that these are typed trees of all kids of the node, as they are inferred in order, and carry what is settled by
    /// now; that the node is shaped, or stands in the place of a part that is left out; and that what the walk relies on of itself, at the
    /// node, and of each tree that has been judged, holds.
    fn turn(
        &mut self,
        alloc: Global,
        s: &mut TypeStore,
        node: &Tree,
        kids: TypedKids,
    ) -> Result<Typed, Stop<Fault>>
        requires ready { (ps : List Spot) × Ready self.old s.old (spot (head node.now).kind (length kids) ∷ ps) }
        requires part { IsPart node.now }
        requires whole { erase_each (typed_nodes kids) ≡ kids_of node.now }
        requires inferred { AreInferred (setting self.old) s.old (above self.old) (head node.now) (kids_of node.now) kids (flow self.old) }
        requires hand { AreInHand (flow self.old) kids }
        requires kept { Each (Keeps s.old) kids }
        ensures ok { IfOk result (λ x. IsTurned (setting self.old) s.new (above self.old) (head node.now) kids (flow self.old) x
            (flow self.new)) }
        ensures hand { IfOk result (λ x. IsInHand (flow self.new) x) }
        ensures err { IfErr result (λ e. IsTurnedBack (setting self.old) s.new (above self.old) (head node.now) kids (flow self.old) e) }
        ensures ready { OnOk result ((ps : List Spot) → Ready self.old s.old (spot (head node.now).kind (length kids) ∷ ps) →
            Ready self.new s.new (spot (head node.now).kind 0 ∷ ps)) }
        ensures kept { IfOk result (λ x. (r : Store) → IsGrown s.new r → Keeps r x) }
        ensures above { OnOk result (above self.new ≡ above self.old) }
        ensures outer { OnOk result (outer self.new ≡ outer self.old) }
        ensures setting { setting self.new ≡ setting self.old }
        ensures grown { IsGrown s.old s.new }
        ensures sound { IsStore s.new };

    /// Gives the tree of the body all that is settled.
    fn finish(&mut self, tree: Typed) -> Typed
        ensures { result ≡ coat (all_settled (flow self.old)) tree };
}
