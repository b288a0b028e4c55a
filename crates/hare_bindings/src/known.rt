//! Whether the types that stand in trees are defined.

ghost use Rattle.std.specs.Prelude.{◌≡◌, true, IfOk};
ghost use Rattle.hare_typed.specs.Typed.{mark_of, typed_nodes};
ghost use Rattle.hare_defined.specs.Known.{AreDefined};
ghost use Rattle.rule_judge.specs.Defined.{IsDefinedTy, IsDefinedTree, AreDefinedTrees};

use hare_defined::Defined;
use hare_typed::{Typed, TypedKids};
use hare_types::{Ty, TypeStore};
use std::alloc::AllocError;

/// Whether a type is defined, where there is one.
fn is_defined(s: &TypeStore, defined: &mut Defined, t: Ty) -> Result<bool, AllocError>
    requires known { AreDefined s.now defined.old }
    ensures value { IfOk result (λ b. b ≡ true → IsDefinedTy s.now t) }
    ensures known { AreDefined s.now defined.new }
{
    match t {
        Ty::Of(t) => defined.is_defined(s, t),
        Ty::Iconst(_) | Ty::Null | Ty::Empty => Ok(true),
    }
}

/// Whether the two types of a node are defined.
fn is_defined_node(s: &TypeStore, defined: &mut Defined, t: &Typed) -> Result<bool, AllocError>
    requires known { AreDefined s.now defined.old }
    ensures own { IfOk result (λ b. b ≡ true → IsDefinedTy s.now (mark_of t.now).ty) }
    ensures to { IfOk result (λ b. b ≡ true → IsDefinedTy s.now (mark_of t.now).coerce.to) }
    ensures known { AreDefined s.now defined.new }
{
    if !is_defined(s, defined, t.ty)? {
        return Ok(false);
    }
    is_defined(s, defined, t.coerce.to)
}

/// Whether each type that stands in a tree is defined. The call goes as deep in the host as the tree is.
#[cycle(known)]
fn is_known(s: &TypeStore, defined: &mut Defined, t: &Typed) -> Result<bool, AllocError>
    requires known { AreDefined s.now defined.old }
    ensures value { IfOk result (λ b. b ≡ true → IsDefinedTree s.now t.now) }
    ensures known { AreDefined s.now defined.new }
{
    if !is_defined_node(s, defined, t)? {
        return Ok(false);
    }
    are_known(s, defined, &t.kids)
}

/// The same of each of some trees.
#[cycle(known)]
pub(crate) fn are_known(
    s: &TypeStore,
    defined: &mut Defined,
    kids: &TypedKids,
) -> Result<bool, AllocError>
    requires known { AreDefined s.now defined.old }
    ensures value { IfOk result (λ b. b ≡ true → AreDefinedTrees s.now (typed_nodes kids.now)) }
    ensures known { AreDefined s.now defined.new }
{
    for i in 0..kids.len() {
        let Some(kid) = kids.get(i) else {
            return Ok(false);
        };
        if !is_known(s, defined, kid)? {
            return Ok(false);
        }
    }
    Ok(true)
}
