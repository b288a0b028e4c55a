//! What a judge is told of what was yielded to its node.

ghost use Rattle.std.specs.Prelude.{◌≡◌, map, IfOk};
ghost use Rattle.hare_types.specs.Store.{Store};
ghost use Rattle.hare_types.specs.Later.{IsLater};
ghost use Rattle.hare_told.specs.Told.{IsVoidOf, IsToldYield, AreToldYields};
ghost use Rattle.hare_flow.specs.Seen.{given_of};
ghost use Rattle.rule_judge.specs.Defined.{IsDefined, IsDefinedTy, AreDefinedYields};
ghost use Rattle.rule_judge.specs.Grown.{IsGrown};
ghost use Rattle.hare_find.specs.Yields.{IsDefinedOption, AreDefinedGivens};

use hare_flow::Handed;
use hare_rules::{Yielded, Yields};
use hare_types::{Scalar, Ty, TypeId, TypeStore};
use rule_judge::word;
use std::alloc::{AllocError, Global};

/// A value as a judge is told of it: without a type it is void, of which this is the type.
fn told_yield(void: TypeId, g: &Handed) -> Yielded
    ensures told { (f : Store) → IsVoidOf f void → IsToldYield f (given_of g.now) result }
    ensures defined { (s : Store) → IsDefined s void → IsDefinedOption s g.now.ty → IsDefinedTy s result.ty }
{
    let ty = match g.ty {
        Some(a) => a,
        None => Ty::Of(void),
    };
    Yielded { place: g.place, ty }
}

/// The values, each as a judge is told of it, in their order.
fn told_each(alloc: Global, void: TypeId, gs: &[Handed]) -> Result<Yields, AllocError>
    ensures told { IfOk result (λ ys. (f : Store) → IsVoidOf f void → AreToldYields f (map given_of gs.now) ys) }
    ensures defined { IfOk result (λ ys. (s : Store) → IsDefined s void → AreDefinedGivens s (map given_of gs.now) →
        AreDefinedYields s ys) }
{
    let mut told = Yields::new(alloc);
    for i in 0..gs.len() {
        told.push(told_yield(void, &gs[i]))?;
    }
    Ok(told)
}

/// What was yielded to a node, as its judge is told of it. The store gets the type void, where something was. The condition is that each
/// type among what was yielded is in the store, and mentions no name that is not defined. Fails for want of memory alone.
pub fn told_yields(alloc: Global, s: &mut TypeStore, gs: &[Handed]) -> Result<Yields, AllocError>
    requires { AreDefinedGivens s.old (map given_of gs.now) }
    ensures told { IfOk result (λ ys. (f : Store) → IsLater s.new f → AreToldYields f (map given_of gs.now) ys) }
    ensures defined { IfOk result (AreDefinedYields s.new) }
    ensures grown { IsGrown s.old s.new }
{
    let _law = s.declarations();
    if gs.is_empty() {
        return Ok(Yields::new(alloc));
    }
    let void = word(s, Scalar::Void)?;
    told_each(alloc, void, gs)
}
