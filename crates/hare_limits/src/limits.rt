//! The first fault of limits.

ghost use Rattle.std.specs.Prelude.{IfOk, IfErr, OnOk};
ghost use Rattle.hare_tree.specs.declared.place.Fault as fault;
ghost use Rattle.hare_whole.specs.Limits as spec;
ghost use Rattle.hare_limits.specs.Stops.{AreBytes, TellsPassed, StopsAtLimit};

use crate::entries::entry;
use crate::frames::first_large_frame;
use crate::sums::first_large_sum;
use hare_tree::{Fault, Stop};
use hare_typed::TypedKids;
use hare_types::TypeStore;
use hx_base::Text;
use std::alloc::{AllocError, Global};

/// The number of the function with which a program begins, where the program is within all limits. The fault is the first of limits, by the
/// paths of the files and by the typed declarations: that of `entry`, or else that of `first_large_frame`, or else that of
/// `first_large_sum`, where `bytes` has the bytes of each declaration, up to 2^40; none of what is no global.
///
/// Takes time in proportion to the paths, and the time of `cost` for each function, twice.
pub fn first_limit(
    alloc: Global,
    paths: &[Text],
    s: &TypeStore,
    decls: &TypedKids,
    bytes: &[u64],
) -> Result<usize, Stop<Fault>>
    requires { AreBytes s.now decls.now bytes.now }
    ensures ok { IfOk result (λ n. spec.AreWithinLimits paths.now s.now decls.now n) }
    ensures err { IfErr result (StopsAtLimit paths.now s.now decls.now) }
    ensures sound { OnOk result ((f : fault.Fault) → spec.IsLimitFault paths.now s.now decls.now f → ⊥) }
{
    match entry(alloc, paths, decls) {
        Ok(number) => match first_passed(alloc, s, decls, bytes)? {
            Some(fault) => Err(Stop::Fault(fault)),
            None => Ok(number),
        },
        Err(stop) => Err(stop),
    }
}

/// The fault of the first frame that is too large, or else that of the first sum.
fn first_passed(
    alloc: Global,
    s: &TypeStore,
    decls: &TypedKids,
    bytes: &[u64],
) -> Result<Option<Fault>, AllocError>
    requires { AreBytes s.now decls.now bytes.now }
    ensures { IfOk result (TellsPassed s.now decls.now) }
{
    let large = first_large_frame(alloc, s, decls)?;
    match large {
        Some(fault) => Ok(Some(fault)),
        None => first_large_sum(alloc, s, decls, bytes),
    }
}
