//! The arrays in the value of a global that are made slices.

ghost use Rattle.std.specs.Prelude.{◌≡◌, min, IfOk, IsTrue};
ghost use Rattle.hare_typed.specs.Typed.{typed_nodes};
ghost use Rattle.hare_typed.specs.Numbers.{kind_of};
ghost use Rattle.hare_whole.specs.Limits as limits;
ghost use Rattle.hare_costs.specs.Amounts.{most};
ghost use Rattle.hare_bytes.specs.Bytes as spec;

use crate::sizes::{size_in, sum};
use crate::sliced::makes_slice;
use hare_typed::{Typed, TypedKids};
use hare_types::TypeStore;
use std::alloc::AllocError;

/// The bytes of the arrays in the value of a global that are made slices, up to 2^40.
pub fn slices_of(s: &TypeStore, decl: &Typed) -> Result<u64, AllocError>
    requires { IsTrue (limits.is_global (kind_of decl.now)) }
    ensures { IfOk result (λ n. n ≡ min (limits.slices_in s.now decl.now) most) }
{
    let count = decl.kids.len();
    if count == 0 {
        return Ok(0);
    }
    match decl.kids.get(count - 1) {
        Some(value) => slices_in(s, value),
        None => Ok(0),
    }
}

/// The bytes of the arrays in a tree that are made slices.
#[cycle(slices)]
fn slices_in(s: &TypeStore, t: &Typed) -> Result<u64, AllocError>
    ensures { IfOk result (λ n. n ≡ min (spec.slices_under s.now t.now) most) }
{
    let inner = slices_among(s, &t.kids)?;
    let own = own_slice(s, t)?;
    Ok(sum(inner, own))
}

/// The same of some trees.
#[cycle(slices)]
fn slices_among(s: &TypeStore, kids: &TypedKids) -> Result<u64, AllocError>
    ensures { IfOk result (λ n. n ≡ min (spec.slices_among s.now (typed_nodes kids.now)) most) }
{
    let mut all: u64 = 0;
    for i in (0..kids.len()).rev() {
        if let Some(t) = kids.get(i) {
            all = sum(slices_in(s, t)?, all);
        }
    }
    Ok(all)
}

/// The bytes of the array that a node is, where it is made a slice.
fn own_slice(s: &TypeStore, t: &Typed) -> Result<u64, AllocError>
    ensures { IfOk result (λ n. n ≡ min (spec.own_slice s.now t.now) most) }
{
    if makes_slice(s, t)? {
        Ok(size_in(s, &t.ty))
    } else {
        Ok(0)
    }
}
