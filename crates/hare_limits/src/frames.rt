//! The frames of functions.

ghost use Rattle.std.specs.Prelude.{◌≡◌, IfOk, IfErr, IsTrue, ◌↔◌};
ghost use Rattle.hare_modules.specs.Order.{fault};
ghost use Rattle.hare_whole.specs.Limits as spec;
ghost use Rattle.hare_limits.specs.Stops.{TellsFrame};

use crate::shapes::{is_function, name_in};
use hare_costs::cost;
use hare_tree::{Fault, Place};
use hare_typed::{Typed, TypedKids};
use hare_types::TypeStore;
use std::alloc::{AllocError, Global};

/// The greatest frame bound that a function may have, in bytes.
const MOST_OF_FRAME: u64 = 16_777_216;

/// The number of the fault of a frame.
const FRAME_TOO_LARGE: u8 = 47;

/// The fault of the first function, in the order of the source, whose frame bound is over 16,777,216 bytes: E47, at its name. None where
/// there is no such function.
///
/// Fails only for want of memory. Takes the time of `cost` for each function.
pub fn first_large_frame(
    alloc: Global,
    s: &TypeStore,
    decls: &TypedKids,
) -> Result<Option<Fault>, AllocError>
    ensures { IfOk result (TellsFrame s.now decls.now) }
{
    for i in 0..decls.len() {
        let Some(decl) = decls.get(i) else {
            return Ok(None);
        };
        if !is_framed(alloc, s, decl)? {
            return Ok(Some(frame_fault(name_in(decl).place)));
        }
    }
    Ok(None)
}

/// The fault of a frame at a place.
fn frame_fault(place: Place) -> Fault
    ensures { result ≡ fault 47 place }
{
    Fault {
        number: FRAME_TOO_LARGE,
        place,
    }
}

/// Whether the frame of a function is at most as large as it may be; of other declarations nothing is asked.
fn is_framed(alloc: Global, s: &TypeStore, t: &Typed) -> Result<bool, AllocError>
    ensures { IfOk result (λ b. IsTrue b ↔ spec.IsFramed s.now t.now) }
{
    if !is_function(t.kind) {
        return Ok(true);
    }
    let cost = cost(alloc, s, t)?;
    Ok(cost.frame <= MOST_OF_FRAME)
}
