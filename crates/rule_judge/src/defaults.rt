//! The types that values take where nothing asks for one.

ghost use Rattle.std.specs.Prelude.{◌≡◌, IfOk, IfSome, is_some};
ghost use Rattle.hare_types.specs.Store.{Store};
ghost use Rattle.hare_types.specs.Later.{IsLater};
ghost use Rattle.hare_rules.specs.Words as words;
ghost use Rattle.rule_judge.specs.Defined.{IsDefined, IsDefinedTy};
ghost use Rattle.rule_judge.specs.Grown.{IsGrown};

use crate::made::word;
use hare_types::{Scalar, Ty, TypeId, TypeStore};
use std::alloc::AllocError;

/// Whether a value of the type has a default type.
pub fn has_default(a: &Ty) -> bool
    ensures { result ≡ words.has_default a.now }
{
    match a {
        Ty::Of(_) => true,
        Ty::Iconst(v) => Scalar::default_of(*v).is_some(),
        Ty::Null | Ty::Empty => false,
    }
}

/// The default type of a value: `int` or `i64` of a whole number that fits one, its own of any type; none of any other value.
///
/// The condition is that the type is in the store, and mentions no name that is not defined. The store may grow in types. Fails for want of
/// memory alone.
pub fn default_in(s: &mut TypeStore, a: &Ty) -> Result<Option<TypeId>, AllocError>
    requires { IsDefinedTy s.old a.now }
    ensures value { IfOk result (λ o. (f : Store) → IsLater s.new f → o ≡ words.default_in f a.now) }
    ensures there { IfOk result (λ o. is_some o ≡ words.has_default a.now) }
    ensures defined { IfOk result (λ o. IfSome o (IsDefined s.new)) }
    ensures grown { IsGrown s.old s.new }
{
    let _law = s.declarations();
    match a {
        Ty::Of(t) => Ok(Some(*t)),
        Ty::Iconst(v) => match Scalar::default_of(*v) {
            Some(k) => Ok(Some(word(s, k)?)),
            None => Ok(None),
        },
        Ty::Null | Ty::Empty => Ok(None),
    }
}
