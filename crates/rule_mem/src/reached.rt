//! Elements and members of what the first operand of a node reaches when pointers are followed.

ghost use Rattle.std.specs.Prelude.{◌≡◌, IfSome};
ghost use Rattle.hare_types.specs.Store.{Store};
ghost use Rattle.hare_types.specs.Later.{IsLater};
ghost use Rattle.hare_typed.specs.Given.{element_in};
ghost use Rattle.hare_typed.specs.Order.{tree_from_front};
ghost use Rattle.hare_rules.specs.Aggregates as spec;
ghost use Rattle.rule_judge.specs.Defined.{IsDefined, IsDefinedTy};
ghost use Rattle.rule_judge.specs.Turns.{context_in, IsTurn};

use crate::members::member;
use crate::reads::{element, reached};
use hare_types::{TypeId, TypeStore};
use rule_judge::{Turn, seen};

/// The element of the array or slice that the operand reaches.
pub(crate) fn element_reached(s: &TypeStore, t: &Turn<'_>) -> Option<TypeId>
    requires { IsTurn s.now t.now }
    ensures value { (f : Store) → IsLater s.now f → result ≡ element_in (spec.reached f (tree_from_front 0 t.now.kids.now)) }
    ensures defined { IfSome result (λ u. IsDefined s.now u) }
{
    element(s, &reached(s, &seen(t, 0)))
}

/// The type of the member that the node names of what the operand reaches.
pub(crate) fn member_reached(s: &TypeStore, t: &Turn<'_>) -> Option<TypeId>
    requires { IsTurn s.now t.now }
    ensures value { (f : Store) → IsLater s.now f → result ≡ spec.member_type (context_in f t.now)
        (spec.reached f (tree_from_front 0 t.now.kids.now)) }
    ensures defined { IfSome result (λ u. IsDefined s.now u) }
{
    member(s, &reached(s, &seen(t, 0)), t.node)
}
