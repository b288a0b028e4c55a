//! Error types, unions with error members, and which types have a size.

ghost use Rattle.std.specs.Prelude.{◌≡◌};
ghost use Rattle.hare_types.specs.ByIds.{has_size_at, is_error_at};
ghost use Rattle.hare_types.specs.Store.{Store};
ghost use Rattle.hare_types.specs.Later.{IsLater};
ghost use Rattle.hare_rules.specs.Words as words;
ghost use Rattle.rule_judge.specs.Defined.{IsDefined, IsDefinedTy};

use crate::bases::base_row;
use hare_types::{Row, Ty, TypeId, TypeStore};

/// Whether values of the type have a size. The condition is that the type is in the store, and mentions no name that is not defined.
pub fn has_size(s: &TypeStore, t: TypeId) -> bool
    requires { IsDefined s.now t }
    ensures { (f : Store) → IsLater s.now f → result ≡ has_size_at f t }
{
    let _law = s.row(t);
    s.has_size(t)
}

/// Whether the type is an error type: it bears an error mark, or names a type that does. The condition is that the type is in the store,
/// and mentions no name that is not defined.
pub fn is_error(s: &TypeStore, t: TypeId) -> bool
    requires { IsDefined s.now t }
    ensures { (f : Store) → IsLater s.now f → result ≡ is_error_at f t }
{
    let _law = s.row(t);
    s.is_error(t)
}

/// Whether the base of the type is a union with an error member. The condition is that the type is in the store, and mentions no name that
/// is not defined.
pub fn has_error_member(s: &TypeStore, a: &Ty) -> bool
    requires { IsDefinedTy s.now a.now }
    ensures { (f : Store) → IsLater s.now f → result ≡ words.has_error_member f a.now }
{
    let Some(Row::Union(members)) = base_row(s, a) else {
        return false;
    };
    for member in members.as_slice() {
        if is_error(s, *member) {
            return true;
        }
    }
    false
}

/// Whether the type is an error type, or its base a union with an error member: such a value is not dropped. The condition is that the type
/// is in the store, and mentions no name that is not defined.
pub fn holds_error(s: &TypeStore, a: &Ty) -> bool
    requires { IsDefinedTy s.now a.now }
    ensures { (f : Store) → IsLater s.now f → result ≡ words.holds_error f a.now }
{
    let own = match a {
        Ty::Of(t) => is_error(s, *t),
        Ty::Iconst(_) | Ty::Null | Ty::Empty => false,
    };
    own || has_error_member(s, a)
}
