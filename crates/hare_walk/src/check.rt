//! The walk: kids from left to right, then the node.

ghost use Rattle.std.specs.Prelude.{◌≡◌, List, [], ◌∷◌, ◌++◌, map, length, IsTrue, OnOk, IfOk, IfErr, Ok};
ghost use Rattle.hare_tree.specs.Node.{head, kids_of, nodes_of};
ghost use Rattle.hare_tree.specs.Shape.{is_shaped};
ghost use Rattle.hare_types.specs.Store.{Store};
ghost use Rattle.hare_types.specs.Sound.{IsStore};
ghost use Rattle.hare_types.specs.Later.{IsLater};
ghost use Rattle.hare_typed.specs.Typed.{typed_nodes};
ghost use Rattle.hare_typed.specs.Erased.{erase, erase_each};
ghost use Rattle.hare_rules.specs.Finished.{bare, expression};
ghost use Rattle.hare_inference.specs.Inferred.{found_kids, infer_each};
ghost use Rattle.hare_walk.specs.Counts.{IsBegun, IsAmong, IsBehind};
ghost use Rattle.hare_walk.specs.Grown.{IsGrown};
ghost use Rattle.hare_walk.specs.Spots.{Spot, spot};
ghost use Rattle.hare_walk.specs.Walks.{IsPart, Each, IsInHand, AreInHand, IsInferred, IsStopped, IsStop, IsTheTreeLater, IsAnswerLater};

use crate::counts::{At, Counts, label_number};
use crate::walk::Walk;
use hare_tree::{Fault, Kids, Stop, Tree};
use hare_typed::{Typed, TypedKids};
use hare_types::TypeStore;
use std::alloc::Global;

/// The one typed tree of a body, or its first fault, by a walk of which nothing has been done: it stands at the body, and is ready there,
/// no node is finished and nothing is settled, and `first` bindings of the declaration begin before it. The body is a shaped expression.
/// The store may grow, also where there is a fault, and the answer holds in each later store. A body of more than 2^32 - 1 nodes or
/// bindings is answered as want of memory. The call goes as deep in the host as the body is.
pub fn check_by<W: Walk>(
    alloc: Global,
    s: &mut TypeStore,
    w: &mut W,
    body: &Tree,
    first: u32,
) -> Result<Typed, Stop<Fault>>
    requires start { (W.flow w.old).coercions ≡ [] }
    requires begins { (W.above w.old).begins ≡ 0 }
    requires first { (W.above w.old).first ≡ first }
    requires ready { W.Ready w.old s.old (spot (head body.now).kind 0 ∷ []) }
    requires shaped { IsTrue (is_shaped expression body.now) }
    ensures ok { IfOk result (IsTheTreeLater (W.setting w.old) s.new (W.above w.old) (W.flow w.old) body.now) }
    ensures err { IfErr result (IsAnswerLater (W.setting w.old) s.new (W.above w.old) (W.flow w.old) body.now) }
    ensures grown { IsGrown s.old s.new }
    ensures sound { IsStore s.new }
{
    let mut counts = Counts {
        nodes: 0,
        bindings: first,
    };
    let judged = judge_tree(alloc, s, w, body, &mut counts);
    let _sound = s.declarations();
    let tree = judged?;
    Ok(w.finish(tree))
}

/// The tree with its types, and all that is settled of it by now.
#[cycle(judge)]
fn judge_tree<W: Walk>(
    alloc: Global,
    s: &mut TypeStore,
    w: &mut W,
    t: &Tree,
    counts: &mut Counts,
) -> Result<Typed, Stop<Fault>>
    requires ready { (ps : List Spot) × W.Ready w.old s.old (spot (head t.now).kind 0 ∷ ps) }
    requires part { IsPart t.now }
    requires counts { IsBegun (W.above w.old) counts.old }
    ensures ok { IfOk result (λ x. IsInferred (W.setting w.old) s.new (W.above w.old) t.now (W.flow w.old) x (W.flow w.new)) }
    ensures hand { IfOk result (λ x. IsInHand (W.flow w.new) x) }
    ensures counts { IfOk result (λ x. IsBehind counts.old (bare x) counts.new) }
    ensures erases { IfOk result (λ x. erase x ≡ t.now) }
    ensures ready { OnOk result ((ps : List Spot) → W.Ready w.old s.old (spot (head t.now).kind 0 ∷ ps) →
        W.Ready w.new s.new (spot (head t.now).kind 0 ∷ ps)) }
    ensures kept { IfOk result (λ x. (r : Store) → IsGrown s.new r → W.Keeps r x) }
    ensures err { IfErr result (λ e. IsStopped (W.setting w.old) s.new (W.above w.old) t.now (W.flow w.old) e) }
    ensures above { OnOk result (W.above w.new ≡ W.above w.old) }
    ensures outer { OnOk result (W.outer w.new ≡ W.outer w.old) }
    ensures setting { W.setting w.new ≡ W.setting w.old }
    ensures grown { IsGrown s.old s.new }
    ensures sound { OnOk result (IsStore s.new) }
{
    counts.begin(t.kind)?;
    let kids = judge_kids(alloc, s, w, t, &t.kids, counts)?;
    counts.finish()?;
    w.turn(alloc, s, t, kids)
}

/// The kids of a node with their types, and all that is settled of them by now.
#[cycle(judge)]
fn judge_kids<W: Walk>(
    alloc: Global,
    s: &mut TypeStore,
    w: &mut W,
    node: &Tree,
    kids: &Kids,
    counts: &mut Counts,
) -> Result<TypedKids, Stop<Fault>>
    requires ready { (ps : List Spot) × W.Ready w.old s.old (spot (head node.now).kind 0 ∷ ps) }
    requires part { IsPart node.now }
    requires counts { IsAmong (W.above w.old) (head node.now) [] counts.old }
    requires whole { kids_of node.now ≡ nodes_of kids.now }
    ensures ok { IfOk result (λ xs. (l : Store) → IsLater s.new l → infer_each (W.setting w.old l) (W.above w.old) (head node.now) []
        (nodes_of kids.now) (W.flow w.old) ≡ Ok (found_kids (map bare xs) (W.flow w.new))) }
    ensures hand { IfOk result (λ xs. AreInHand (W.flow w.new) xs) }
    ensures counts { IfOk result (λ xs. IsAmong (W.above w.old) (head node.now) (map bare xs) counts.new) }
    ensures erases { IfOk result (λ xs. erase_each (typed_nodes xs) ≡ nodes_of kids.now) }
    ensures ready { IfOk result (λ xs. (ps : List Spot) → W.Ready w.old s.old (spot (head node.now).kind 0 ∷ ps) →
        W.Ready w.new s.new (spot (head node.now).kind (length xs) ∷ ps)) }
    ensures kept { IfOk result (λ xs. Each (W.Keeps s.new) xs) }
    ensures err { IfErr result (λ e. (l : Store) → IsLater s.new l →
        IsStop e (infer_each (W.setting w.old l) (W.above w.old) (head node.now) [] (nodes_of kids.now) (W.flow w.old))) }
    ensures above { OnOk result (W.above w.new ≡ W.above w.old) }
    ensures outer { OnOk result (W.outer w.new ≡ W.outer w.old) }
    ensures setting { W.setting w.new ≡ W.setting w.old }
    ensures grown { IsGrown s.old s.new }
{
    let number = label_number(counts.nodes, node.kind, kids)?;
    let mut done = TypedKids::with_room(alloc, kids.len());
    for i in 0..kids.len() {
        let Some(kid) = kids.get(i) else {
            unreachable!();
        };
        let at = At {
            begins: counts.nodes,
            first: counts.bindings,
            number,
        };
        w.enter(s, node, &done, kids, kid, at)?;
        // A `?` would copy the tree once more.
        match judge_tree(alloc, s, w, kid, counts) {
            Ok(x) => {
                w.leave();
                done.push(x)?;
            }
            Err(stop) => return Err(stop),
        }
    }
    Ok(done)
}
