//! What stands before any declaration has been judged.

ghost use Rattle.std.specs.Prelude.{◌≡◌, replicate, None, IfOk};
ghost use Rattle.hare_declarations.specs.Standing.{IsBeginning};

use crate::parts::Parts;
use crate::state::State;
use hare_defined::Defined;
use hare_waits::Waits;
use rule_judge::DeclTypes;
use std::alloc::{AllocError, Global};

/// So many slots, of which none has been filled.
fn empty_slots(alloc: Global, count: usize) -> Result<Vec<Option<Parts>>, AllocError>
    ensures { IfOk result (λ qs. qs.items ≡ replicate count None) }
{
    let mut slots = Vec::new(alloc);
    for _ in 0..count {
        slots.push(None)?;
    }
    Ok(slots)
}

/// What stands before any of so many declarations has been judged.
pub(crate) fn begin(alloc: Global, count: usize) -> Result<State, AllocError>
    ensures { IfOk result (IsBeginning count) }
{
    let slots = empty_slots(alloc, count)?;
    Ok(State {
        known: DeclTypes::new(alloc),
        ready: DeclTypes::new(alloc),
        defined: Defined::new(alloc),
        waits: Waits::new(alloc),
        slots,
    })
}
