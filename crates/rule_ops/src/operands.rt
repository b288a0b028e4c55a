//! The types of operands.

ghost use Rattle.std.specs.Prelude.{◌≡◌};
ghost use Rattle.hare_typed.specs.Given as given;
ghost use Rattle.hare_typed.specs.Order.{tree_from_front};
ghost use Rattle.hare_rules.specs.Context as context;
ghost use Rattle.rule_judge.specs.Defined.{IsDefinedTy};
ghost use Rattle.rule_judge.specs.Turns.{IsTurn};

use hare_types::{Ty, TypeStore};
use rule_judge::{Turn, seen_at, type_at};

/// The type of what operand `i` gives, as its coercion leaves it.
pub(crate) fn operand(s: &TypeStore, t: &Turn<'_>, i: usize) -> Ty
    requires { IsTurn s.now t.now }
    ensures value { result ≡ given.given (tree_from_front i t.now.kids.now) }
    ensures defined { IsDefinedTy s.now result }
{
    let _law = s.declarations();
    seen_at(t.kids, i)
}

/// The type of what operand `i` gives, before its coercion; of a type that is written that type.
pub(crate) fn written(s: &TypeStore, t: &Turn<'_>, i: usize) -> Ty
    requires { IsTurn s.now t.now }
    ensures value { result ≡ context.own_type (tree_from_front i t.now.kids.now) }
    ensures defined { IsDefinedTy s.now result }
{
    let _law = s.declarations();
    type_at(t.kids, i)
}
