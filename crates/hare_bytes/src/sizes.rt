//! Sizes that stop at a greatest one, and the rows of types of which it is not known whether the store has them.

ghost use Rattle.std.specs.Prelude.{◌≡◌, ◌+◌, min, Some, IfOk, option_copied};
ghost use Rattle.hare_types.specs.ByIds.{row_at, size_at};
ghost use Rattle.hare_types.specs.Sound.{IsStore};
ghost use Rattle.hare_typed.specs.Given as given;
ghost use Rattle.hare_types.specs.declared.coercion.Ty.TheVariants.{Of};
ghost use Rattle.hare_costs.specs.Amounts.{most};

use hare_types::{Row, Ty, TypeId, TypeStore};
use std::alloc::AllocError;

/// The greatest size that is told: 2^40.
const MOST: u64 = 1_099_511_627_776;

/// A sum, which stops at `MOST`.
pub fn sum(a: u64, b: u64) -> u64
    ensures { result ≡ min (a + b) most }
{
    least(a.saturating_add(b))
}

/// A number, or `MOST` where that is less.
fn least(n: u64) -> u64
    ensures { result ≡ min n most }
{
    if n < MOST { n } else { MOST }
}

/// The size of a type of a store, up to `MOST`; 0 where it has none.
pub fn size_of(s: &TypeStore, t: TypeId) -> u64
    ensures { result ≡ min (size_at s.now t) most }
{
    match s.extent(t) {
        Some(extent) => least(extent.size),
        None => 0,
    }
}

/// The size of a type, up to `MOST`; 0 where it has none.
pub fn size_in(s: &TypeStore, a: &Ty) -> u64
    ensures { result ≡ min (given.size_in s.now a.now) most }
{
    match a {
        Ty::Of(t) => size_of(s, *t),
        Ty::Iconst(_) | Ty::Null | Ty::Empty => 0,
    }
}

/// The row of a type. Fails where the type is not in the store, or comes to a name that is not defined.
pub fn row_of(s: &TypeStore, t: TypeId) -> Result<&Row, AllocError>
    ensures row { IfOk result (λ r. row_at s.now t ≡ Some r.now) }
    ensures sound { IsStore s.now }
{
    match s.base(t) {
        Some(_) => Ok(s.row(t)),
        None => Err(AllocError),
    }
}

/// The row of the base of a type; none where it comes to a name that is not defined.
pub fn base_row(s: &TypeStore, t: TypeId) -> Option<&Row>
    ensures { option_copied result ≡ given.base_row s.now (Of t) }
{
    let b = s.base(t)?;
    Some(s.row(b))
}
