//! What becomes of values at their sites.

ghost use Rattle.std.specs.Prelude.{◌≡◌, IfOk, IfSome};
ghost use Rattle.hare_types.specs.Assign as assign;
ghost use Rattle.hare_types.specs.declared.coercion.Ty.TheVariants.{Of};
ghost use Rattle.hare_types.specs.Store.{Store};
ghost use Rattle.hare_types.specs.Later.{IsLater};
ghost use Rattle.hare_rules.specs.Joined as joined;
ghost use Rattle.hare_rules.specs.Settles as settles;
ghost use Rattle.rule_judge.specs.Defined.{IsDefined, IsDefinedTy, IsDefinedHint};
ghost use Rattle.rule_judge.specs.Grown.{IsGrown};

use crate::made::word;
use hare_assign::assignable;
use hare_rules::Hint;
use hare_types::{Coercion, Scalar, Ty, TypeId, TypeStore};
use std::alloc::AllocError;

/// What becomes of a value of type `a` that is assigned to type `to`; none where it may not be. The condition is that both types are in the
/// store, and mention no name that is not defined.
pub fn coerced(s: &TypeStore, a: &Ty, to: TypeId) -> Option<Coercion>
    requires value { IsDefinedTy s.now a.now }
    requires to { IsDefined s.now to }
    ensures value { (f : Store) → IsLater s.now f → result ≡ assign.coercion f a.now to }
    ensures to { IfSome result (λ r. r.to ≡ Of to) }
{
    let _law = s.row(to);
    assignable(s, to, *a)
}

/// Whether a value of type `void` may be assigned to the type. The condition is that `to` is in the store, and mentions no name that is not
/// defined. The store may grow in types. Fails for want of memory alone.
pub fn void_fits(s: &mut TypeStore, to: TypeId) -> Result<bool, AllocError>
    requires { IsDefined s.old to }
    ensures value { IfOk result (λ b. (f : Store) → IsLater s.new f → b ≡ joined.void_fits f to) }
    ensures grown { IsGrown s.old s.new }
{
    let _law = s.declarations();
    let void = word(s, Scalar::Void)?;
    Ok(coerced(s, &Ty::Of(void), to).is_some())
}

/// A value goes to the type, where there is one and it may be assigned to it; else it stays as it is. The condition is that both types, as
/// far as there are two, are in the store, and mention no name that is not defined.
pub fn to_type(s: &TypeStore, a: &Ty, to: &Option<TypeId>) -> Coercion
    requires value { IsDefinedTy s.now a.now }
    requires to { IfSome to.now (IsDefined s.now) }
    ensures value { (f : Store) → IsLater s.now f → result ≡ settles.to_type f a.now to.now }
    ensures defined { IsDefinedTy s.now result.to }
{
    let Some(t) = to else {
        return same(a);
    };
    match coerced(s, a, *t) {
        Some(r) => r,
        None => same(a),
    }
}

/// What becomes of a value under this hint. The condition is that the type, and one for which the hint asks, are in the store, and mention
/// no name that is not defined.
pub fn own_coercion(s: &TypeStore, hint: &Hint, a: &Ty) -> Coercion
    requires value { IsDefinedTy s.now a.now }
    requires hint { IsDefinedHint s.now hint.now }
    ensures value { (f : Store) → IsLater s.now f → result ≡ settles.own_coercion f hint.now a.now }
    ensures defined { IsDefinedTy s.now result.to }
{
    match hint {
        Hint::Of(t) => to_type(s, a, &Some(*t)),
        Hint::Drop | Hint::None => same(a),
    }
}

/// What stays as it is.
fn same(a: &Ty) -> Coercion
    ensures { result ≡ settles.same a.now }
{
    Coercion { row: 1, to: *a }
}
