//! The sums over all declarations of a program.

ghost use Rattle.std.specs.Prelude.{◌≡◌, min, slice_index_or, IfOk};
ghost use Rattle.hare_modules.specs.Order.{fault};
ghost use Rattle.hare_whole.specs.Limits as spec;
ghost use Rattle.hare_costs.specs.Amounts.{most};
ghost use Rattle.hare_limits.specs.Stops.{AreBytes, TellsSum};

use crate::shapes::{is_function, name_in};
use hare_costs::cost;
use hare_tree::{Fault, Place};
use hare_typed::{Typed, TypedKids};
use hare_types::TypeStore;
use std::alloc::{AllocError, Global};

/// The greatest weight that the functions of a program may have together.
const MOST_OF_WEIGHT: u64 = 524_288;

/// The greatest number of bytes that the globals of a program may have together.
const MOST_OF_GLOBALS: u64 = 16_777_216;

/// The number of the fault of a sum.
const PROGRAM_TOO_LARGE: u8 = 48;

/// The fault of the first declaration, in the order of the source, with which a sum passes its limit: E48, at its name. None where no sum
/// does. The copied weights of functions are together at most 524,288, and the bytes of globals, with those of the arrays in their values
/// that are made slices, at most 16,777,216. `bytes` has the bytes of each declaration, up to 2^40; none of what is no global.
///
/// Fails only for want of memory. Takes the time of `cost` for each function.
pub fn first_large_sum(
    alloc: Global,
    s: &TypeStore,
    decls: &TypedKids,
    bytes: &[u64],
) -> Result<Option<Fault>, AllocError>
    requires { AreBytes s.now decls.now bytes.now }
    ensures { IfOk result (TellsSum s.now decls.now) }
{
    let mut weight: u64 = 0;
    let mut size: u64 = 0;
    for i in 0..decls.len() {
        let Some(decl) = decls.get(i) else {
            return Ok(None);
        };
        weight += function_weight(alloc, s, decl)?;
        size += bytes_at(bytes, i);
        if weight > MOST_OF_WEIGHT {
            return Ok(Some(sum_fault(name_in(decl).place)));
        }
        if size > MOST_OF_GLOBALS {
            return Ok(Some(sum_fault(name_in(decl).place)));
        }
    }
    Ok(None)
}

/// The bytes of the declaration with so many before it; none past the last.
fn bytes_at(bytes: &[u64], i: usize) -> u64
    ensures { result ≡ slice_index_or bytes.now i 0 }
{
    match bytes.get(i) {
        Some(count) => *count,
        None => 0,
    }
}

/// The fault of a sum at a place.
fn sum_fault(place: Place) -> Fault
    ensures { result ≡ fault 48 place }
{
    Fault {
        number: PROGRAM_TOO_LARGE,
        place,
    }
}

/// The copied weight of a function, up to 2^40; of other declarations none.
fn function_weight(alloc: Global, s: &TypeStore, t: &Typed) -> Result<u64, AllocError>
    ensures { IfOk result (λ w. w ≡ min (spec.function_weight s.now t.now) most) }
{
    if !is_function(t.kind) {
        return Ok(0);
    }
    let cost = cost(alloc, s, t)?;
    Ok(cost.weight)
}
