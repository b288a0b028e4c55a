//! Rows of types, and of their bases.

ghost use Rattle.std.specs.Prelude.{◌≡◌, option_copied, IfSome};
ghost use Rattle.hare_types.specs.Assign.{IsIn};
ghost use Rattle.hare_types.specs.Store.{Store};
ghost use Rattle.hare_types.specs.Later.{IsLater};
ghost use Rattle.hare_typed.specs.Given as given;
ghost use Rattle.hare_rules.specs.Words as words;
ghost use Rattle.rule_judge.specs.Defined.{IsDefinedTy, HoldsDefined};

use hare_types::{Row, Scalar, Ty, TypeStore};

/// The row of a type, names and error marks not followed; none of what has no type. The condition is that the type is in the store.
pub fn row_in<'s>(s: &'s TypeStore, a: &Ty) -> Option<&'s Row>
    requires { IsIn s.now a.now }
    ensures { (f : Store) → IsLater s.now f → option_copied result ≡ words.row_in f a.now }
{
    match a {
        Ty::Of(t) => Some(s.row(*t)),
        Ty::Iconst(_) | Ty::Null | Ty::Empty => None,
    }
}

/// The row of the base of a type; none of what has no type. The condition is that the type is in the store, and mentions no name that is
/// not defined.
pub fn base_row<'s>(s: &'s TypeStore, a: &Ty) -> Option<&'s Row>
    requires { IsDefinedTy s.now a.now }
    ensures value { (f : Store) → IsLater s.now f → option_copied result ≡ given.base_row f a.now }
    ensures defined { IfSome result (λ r. HoldsDefined s.now r.now) }
{
    let Ty::Of(t) = a else {
        return None;
    };
    let b = s.base(*t)?;
    Some(s.row(b))
}

/// Whether the type is `never` itself, and not a name of it. The condition is that the type is in the store.
pub fn is_never(s: &TypeStore, a: &Ty) -> bool
    requires { IsIn s.now a.now }
    ensures { (f : Store) → IsLater s.now f → result ≡ words.is_never f a.now }
{
    matches!(row_in(s, a), Some(Row::Scalar(Scalar::Never)))
}
