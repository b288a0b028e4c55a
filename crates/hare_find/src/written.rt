//! What is found of written types.

ghost use Rattle.std.specs.Prelude.{◌≡◌, ℕ, true, length, IfOk, IfErr};
ghost use Rattle.hare_tree.specs.Levels.{is_type};
ghost use Rattle.hare_types.specs.declared.coercion.Ty.TheVariants as ty;
ghost use Rattle.hare_types.specs.Store.{Store};
ghost use Rattle.hare_rules.specs.Context.{Setting};
ghost use Rattle.hare_rules.specs.Above.{Above};
ghost use Rattle.hare_rules.specs.Flow.{Flow};
ghost use Rattle.hare_walk.specs.Walks.{IsTurnedBack};
ghost use Rattle.rule_types.specs.Grown.{IsGrown};
ghost use Rattle.rule_types.specs.Known.{IsKnown, IsToldType, IsDefinedWritten};
ghost use Rattle.rule_types.specs.Contexts.{head_in, kind_in};
ghost use Rattle.hare_find.specs.Findings.{IsFound, IsDefinedFinding};
ghost use Rattle.hare_find.specs.Written.{IsAtType};

use crate::finding::Finding;
use crate::unsettled::unsettled;
use hare_tree::{Fault, Stop};
use hare_types::{Ty, TypeStore};
use rule_types::{Written, judge};
use std::alloc::Global;

/// Judges a written type whose names are all defined: what is found of it, or its fault, in every later store. It is the type that it
/// writes, and it settles nothing. The store may grow in names and types.
///
/// The node is a written type of which the conditions of `rule_types::judge` hold; each type that stands in its kids is in the store, and
/// mentions no name that is not defined; and so does what the declaration is defined to be that its path means.
pub fn find_written(
    alloc: Global,
    s: &mut TypeStore,
    t: &Written<'_>,
) -> Result<Finding, Stop<Fault>>
    requires kind { is_type (kind_in t.now) ≡ true }
    requires told { IsToldType s.old t.now }
    requires names { IsDefinedWritten s.old t.now }
    ensures ok { IfOk result (λ x. (w : Store → Setting) (a : Above) (f : Flow) → IsAtType w s.new a f t.now →
        IsFound w s.new a (head_in t.now) t.now.kids.now f x) }
    ensures err { IfErr result (λ e. (w : Store → Setting) (a : Above) (f : Flow) → IsAtType w s.new a f t.now →
        IsTurnedBack w s.new a (head_in t.now) t.now.kids.now f e) }
    ensures many { IfOk result (λ x. length x.kids ≡ length t.now.kids.now) }
    ensures typed { IfOk result (λ x. (u : ℕ) × (x.ty ≡ ty.Of u)) }
    ensures known { IfOk result (λ x. (u : ℕ) → x.ty ≡ ty.Of u → IsKnown s.new u) }
    ensures defined { IfOk result (IsDefinedFinding s.new) }
    ensures grown { IsGrown s.old s.new }
{
    let u = judge(alloc, s, t)?;
    let found = unsettled(alloc, &Ty::Of(u), t.kids.len())?;
    Ok(found)
}
