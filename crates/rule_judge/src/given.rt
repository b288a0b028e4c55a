//! What the kids of a node give to it.

ghost use Rattle.std.specs.Prelude.{◌≡◌};
ghost use Rattle.hare_types.specs.Store.{Store};
ghost use Rattle.hare_typed.specs.Given.{given};
ghost use Rattle.hare_typed.specs.Order.{tree_from_front};
ghost use Rattle.hare_rules.specs.Context as context;
ghost use Rattle.rule_judge.specs.Defined.{IsDefinedTy};
ghost use Rattle.rule_judge.specs.Turns.{IsTurn};

use crate::told::{seen_at, type_at};
use crate::turn::Turn;
use hare_types::Ty;

/// The type of what kid `i` gives, before its coercion.
pub fn own(t: &Turn<'_>, i: usize) -> Ty
    ensures value { result ≡ context.own_type (tree_from_front i t.now.kids.now) }
    ensures defined { (s : Store) → IsTurn s t.now → IsDefinedTy s result }
{
    type_at(t.kids, i)
}

/// The type of what kid `i` gives, as its coercion leaves it.
pub fn seen(t: &Turn<'_>, i: usize) -> Ty
    ensures value { result ≡ given (tree_from_front i t.now.kids.now) }
    ensures defined { (s : Store) → IsTurn s t.now → IsDefinedTy s result }
{
    seen_at(t.kids, i)
}
