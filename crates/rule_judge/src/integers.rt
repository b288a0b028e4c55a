//! Integers, by the bases of their types.

ghost use Rattle.std.specs.Prelude.{◌≡◌};
ghost use Rattle.hare_types.specs.Store.{Store};
ghost use Rattle.hare_types.specs.Later.{IsLater};
ghost use Rattle.hare_rules.specs.Words as words;
ghost use Rattle.rule_judge.specs.Defined.{IsDefinedTy};

use crate::bases::base_row;
use hare_types::{Row, Scalar, Ty, TypeStore};

/// The word of the integer type that is the base; none where the base is none. The condition is that the type is in the store, and mentions
/// no name that is not defined.
pub fn integer_word(s: &TypeStore, a: &Ty) -> Option<Scalar>
    requires { IsDefinedTy s.now a.now }
    ensures { (f : Store) → IsLater s.now f → result ≡ words.integer_word f a.now }
{
    match base_row(s, a) {
        Some(Row::Scalar(k)) => {
            if k.is_signed().is_some() {
                Some(*k)
            } else {
                None
            }
        }
        _ => None,
    }
}

/// Whether it is a whole number without a suffix, or the base of its type is an integer type. The condition is that the type is in the
/// store, and mentions no name that is not defined.
pub fn is_integer(s: &TypeStore, a: &Ty) -> bool
    requires { IsDefinedTy s.now a.now }
    ensures { (f : Store) → IsLater s.now f → result ≡ words.is_integer f a.now }
{
    matches!(a, Ty::Iconst(_)) || integer_word(s, a).is_some()
}
