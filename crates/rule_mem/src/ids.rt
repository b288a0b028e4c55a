//! Lists of types: copies, and what holds of each.

ghost use Rattle.std.specs.Prelude.{◌≡◌, ℕ, Contains, IfOk, option_map};
ghost use Rattle.hare_types.specs.ByIds.{extent_at};
ghost use Rattle.hare_types.specs.Store.{Store};
ghost use Rattle.hare_types.specs.Later.{IsLater};
ghost use Rattle.hare_rules.specs.Aggregates as spec;
ghost use Rattle.rule_judge.specs.Defined.{IsDefined};

use crate::reads::extent;
use hare_types::{TypeId, TypeIds, TypeStore};
use rule_judge::has_size;
use std::alloc::{AllocError, Global};

/// The greatest size of a type, in bytes.
const MOST_BYTES: u64 = 67_108_864;

/// A list of the same types.
pub(crate) fn copied(alloc: Global, types: &[TypeId]) -> Result<TypeIds, AllocError>
    ensures { IfOk result (λ ts. ts ≡ types.now) }
{
    let mut copy = TypeIds::new(alloc);
    for t in types {
        copy.push(*t)?;
    }
    Ok(copy)
}

/// Whether each of the types has a size.
pub(crate) fn all_sized(s: &TypeStore, types: &[TypeId]) -> bool
    requires { (i : ℕ) → Contains types.now i → IsDefined s.now i }
    ensures { (f : Store) → IsLater s.now f → result ≡ spec.all_sized f types.now }
{
    for t in types {
        if !has_size(s, *t) {
            return false;
        }
    }
    true
}

/// Whether a value of the type takes no more bytes than a type may; so it is of a type without a known size.
pub(crate) fn is_small(s: &TypeStore, t: TypeId) -> bool
    requires { IsDefined s.now t }
    ensures { (f : Store) → IsLater s.now f → result ≡ spec.is_small (option_map (λ x. x.size) (extent_at f t)) }
{
    match extent(s, t) {
        Some(x) => x.size <= MOST_BYTES,
        None => true,
    }
}
