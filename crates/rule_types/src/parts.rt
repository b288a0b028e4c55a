//! What the parts of a written type write.

ghost use Rattle.std.specs.Prelude.{◌≡◌, ◌<◌, ◌-◌, IsSome, Some, length};
ghost use Rattle.hare_types.specs.Store.{Store};
ghost use Rattle.hare_types.specs.declared.coercion.Ty.TheVariants as ty;
ghost use Rattle.hare_typed.specs.Numbers.{kind_of};
ghost use Rattle.hare_typed.specs.Order.{tree_from_front};
ghost use Rattle.hare_rules.specs.Context.{own_type};
ghost use Rattle.hare_rules.specs.Words.{id_in};
ghost use Rattle.hare_rules.specs.Written as spec;
ghost use Rattle.rule_types.specs.Known.{IsKnown, IsKnownTy};

use hare_tree::Kind;
use hare_typed::{Typed, TypedKids};
use hare_types::{Ty, TypeId};
use rule_judge::type_at;

/// The type that kid `i` writes, which is there.
pub(crate) fn part(kids: &TypedKids, i: usize) -> TypeId
    requires { IsSome (id_in (own_type (tree_from_front i kids.now))) }
    ensures { own_type (tree_from_front i kids.now) ≡ ty.Of result }
{
    match type_at(kids, i) {
        Ty::Of(u) => u,
        Ty::Iconst(_) | Ty::Null | Ty::Empty => unreachable!(),
    }
}

/// The type that a component or a field writes.
pub(crate) fn part_type(kid: &Typed) -> Ty
    ensures { result ≡ spec.part_type_by (kind_of kid.now) kid.now }
{
    match kid.kind {
        Kind::StructField => type_at(&kid.kids, 0),
        _ => kid.ty,
    }
}
