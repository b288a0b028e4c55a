//! What hints ask of aggregates and of allocations.

ghost use Rattle.std.specs.Prelude.{◌≡◌, ℕ, option_copied, Contains, IfSome};
ghost use Rattle.hare_types.specs.Store.{Store};
ghost use Rattle.hare_types.specs.Later.{IsLater};
ghost use Rattle.hare_rules.specs.Aggregates as spec;
ghost use Rattle.hare_rules.specs.Words as words;
ghost use Rattle.rule_mem.specs.Asking.{object_of};
ghost use Rattle.rule_judge.specs.Defined.{IsDefined, IsDefinedHint, HoldsDefined};

use hare_rules::Hint;
use hare_types::{Row, Ty, TypeId, TypeStore};
use rule_judge::{asked, base_row};

/// The row of the base of the type that a hint asks for; none where it asks for none.
pub(crate) fn hint_base<'s>(s: &'s TypeStore, hint: &Hint) -> Option<&'s Row>
    requires { IsDefinedHint s.now hint.now }
    ensures value { (f : Store) → IsLater s.now f → option_copied result ≡ spec.hint_base f hint.now }
    ensures defined { IfSome result (λ r. HoldsDefined s.now r.now) }
{
    match hint {
        Hint::Of(t) => base_row(s, &Ty::Of(*t)),
        Hint::Drop | Hint::None => None,
    }
}

/// The element that a hint gives to an array. The condition is that a type for which the hint asks is in the store, and mentions no name
/// that is not defined.
pub fn hinted_element(s: &TypeStore, hint: &Hint) -> Option<TypeId>
    requires { IsDefinedHint s.now hint.now }
    ensures value { (f : Store) → IsLater s.now f → result ≡ spec.hinted_element f hint.now }
    ensures defined { IfSome result (λ t. IsDefined s.now t) }
{
    match hint_base(s, hint) {
        Some(Row::Slice(t)) => Some(*t),
        Some(Row::Array(_, t)) => Some(*t),
        _ => None,
    }
}

/// The length of the array for which a hint asks.
pub(crate) fn hinted_length(s: &TypeStore, hint: &Hint) -> Option<u64>
    requires { IsDefinedHint s.now hint.now }
    ensures { (f : Store) → IsLater s.now f → result ≡ words.array_length (spec.hint_base f hint.now) }
{
    match hint_base(s, hint) {
        Some(Row::Array(n, _)) => Some(*n),
        _ => None,
    }
}

/// The components that a hint gives to a tuple of so many items. The condition is that a type for which the hint asks is in the store, and
/// mentions no name that is not defined.
pub fn hinted_components<'s>(s: &'s TypeStore, hint: &Hint, count: usize) -> Option<&'s [TypeId]>
    requires { IsDefinedHint s.now hint.now }
    ensures value { (f : Store) → IsLater s.now f → option_copied result ≡ spec.hinted_components f hint.now count }
    ensures defined { IfSome result (λ ts. (i : ℕ) → Contains ts.now i → IsDefined s.now i) }
{
    match hint_base(s, hint) {
        Some(Row::Tuple(types)) => {
            if types.len() == count {
                Some(types.as_slice())
            } else {
                None
            }
        }
        _ => None,
    }
}

/// The object that an allocation of one operand is asked for. The condition is that a type for which the hint asks is in the store, and
/// mentions no name that is not defined.
pub fn object_asked(s: &TypeStore, hint: &Hint) -> Option<TypeId>
    requires { IsDefinedHint s.now hint.now }
    ensures value { (f : Store) → IsLater s.now f → result ≡ object_of f hint.now }
    ensures defined { IfSome result (λ u. IsDefined s.now u) }
{
    let Some(t) = asked(s, hint) else {
        return None;
    };
    match base_row(s, &Ty::Of(t)) {
        Some(Row::Pointer(u)) => Some(*u),
        Some(Row::Nullable(u)) => Some(*u),
        _ => None,
    }
}
