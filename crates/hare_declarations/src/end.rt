//! What stands once all declarations have been judged.

ghost use Rattle.std.specs.Prelude.{◌≡◌, map, Some, IfOk};
ghost use Rattle.hare_declarations.specs.Standing.{IsTaken};

use crate::parts::{Judged, Parts};
use crate::state::State;
use hx_base::Items;
use std::alloc::{AllocError, Global};

/// The parts of all declarations. Where one has none, the answer is want of memory.
fn parts_of(alloc: Global, slots: Vec<Option<Parts>>) -> Result<Items<Parts>, AllocError>
    ensures { IfOk result (λ qs. map Some qs ≡ slots.items) }
{
    let mut parts = Items::new(alloc);
    for slot in slots {
        let Some(own) = slot else {
            return Err(AllocError);
        };
        parts.push(own)?;
    }
    Ok(parts)
}

/// What is known of declarations, and what has been judged of each.
pub(crate) fn end(alloc: Global, state: State) -> Result<Judged, AllocError>
    ensures { IfOk result (IsTaken state) }
{
    Ok(Judged {
        known: state.known,
        parts: parts_of(alloc, state.slots)?,
    })
}
