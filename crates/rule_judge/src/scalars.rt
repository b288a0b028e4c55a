//! The types by which a `switch` goes, and which a def has.

ghost use Rattle.std.specs.Prelude.{◌≡◌, Some};
ghost use Rattle.hare_types.specs.Store.{Store};
ghost use Rattle.hare_types.specs.Later.{IsLater};
ghost use Rattle.hare_rules.specs.Control as control;
ghost use Rattle.rule_judge.specs.Defined.{IsDefinedTy};

use crate::bases::base_row;
use crate::defaults::has_default;
use hare_types::{Row, Scalar, Ty, TypeStore};

/// Whether the word is that of an integer type, or `bool`, `rune` or `str`.
fn is_scalar_word(k: Scalar) -> bool
    ensures { result ≡ control.is_scalar_word (Some k) }
{
    matches!(k, Scalar::Bool | Scalar::Rune | Scalar::Str) || k.is_signed().is_some()
}

/// Whether the base of the type is an integer type, `bool`, `rune` or `str`; of a whole number without a suffix, whether it has a default.
/// The condition is that the type is in the store, and mentions no name that is not defined.
pub fn is_scalar(s: &TypeStore, a: &Ty) -> bool
    requires { IsDefinedTy s.now a.now }
    ensures { (f : Store) → IsLater s.now f → result ≡ control.is_scalar f a.now }
{
    match a {
        Ty::Of(_) => match base_row(s, a) {
            Some(Row::Scalar(k)) => is_scalar_word(*k),
            _ => false,
        },
        Ty::Iconst(_) => has_default(a),
        Ty::Null | Ty::Empty => false,
    }
}
