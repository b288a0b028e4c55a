//! What hints ask of allocations.

ghost use Rattle.std.specs.Prelude.{◌≡◌, ℕ, option_and_then, filter, Contains, IfSome};
ghost use Rattle.hare_types.specs.Store.{Store};
ghost use Rattle.hare_types.specs.Later.{IsLater};
ghost use Rattle.hare_rules.specs.Above as above;
ghost use Rattle.hare_rules.specs.Words as words;
ghost use Rattle.rule_judge.specs.Defined.{IsDefined, IsDefinedHint};

use crate::bases::base_row;
use hare_rules::Hint;
use hare_types::{Row, Ty, TypeId, TypeStore};

/// Whether the base of a type is a pointer, an array or a slice.
fn is_allocated(s: &TypeStore, t: TypeId) -> bool
    requires { IsDefined s.now t }
    ensures { (f : Store) → IsLater s.now f → result ≡ words.is_allocated f t }
{
    matches!(
        base_row(s, &Ty::Of(t)),
        Some(Row::Pointer(_) | Row::Nullable(_) | Row::Array(_, _) | Row::Slice(_))
    )
}

/// The one of these types whose base is a pointer, an array or a slice; none where there is none or several.
fn only_allocated(s: &TypeStore, types: &[TypeId]) -> Option<TypeId>
    requires { (i : ℕ) → Contains types.now i → IsDefined s.now i }
    ensures value { (f : Store) → IsLater s.now f → result ≡ words.only_one (filter (words.is_allocated f) types.now) }
    ensures defined { IfSome result (λ t. IsDefined s.now t) }
{
    let mut found = None;
    for t in types {
        if is_allocated(s, *t) {
            match found {
                Some(_) => return None,
                None => found = Some(*t),
            }
        }
    }
    found
}

/// The type of which a type that is asked for asks an allocation: itself, where its base is a pointer, an array or a slice; else, of a
/// union, the one member of which that is so.
fn allocation(s: &TypeStore, t: TypeId) -> Option<TypeId>
    requires { IsDefined s.now t }
    ensures value { (f : Store) → IsLater s.now f → result ≡ words.allocation f t }
    ensures defined { IfSome result (λ u. IsDefined s.now u) }
{
    match base_row(s, &Ty::Of(t)) {
        Some(Row::Pointer(_) | Row::Nullable(_) | Row::Array(_, _) | Row::Slice(_)) => Some(t),
        Some(Row::Union(members)) => only_allocated(s, members.as_slice()),
        _ => None,
    }
}

/// The type of which a hint asks an allocation. The condition is that a type for which it asks is in the store, and mentions no name that
/// is not defined.
pub fn asked(s: &TypeStore, hint: &Hint) -> Option<TypeId>
    requires { IsDefinedHint s.now hint.now }
    ensures value { (f : Store) → IsLater s.now f → result ≡ option_and_then (words.allocation f) (above.hint_id hint.now) }
    ensures defined { IfSome result (λ u. IsDefined s.now u) }
{
    match hint {
        Hint::Of(t) => allocation(s, *t),
        Hint::Drop | Hint::None => None,
    }
}
