//! Numbers of nodes.

ghost use Rattle.std.specs.Prelude.{◌≡◌, IfOk};
ghost use Rattle.hare_rules.specs.Flow.{count};

use hare_flow::Seen;
use std::alloc::AllocError;

/// The number of the node at hand: so many have been judged before it. One of 2^32 or more is answered as want of memory.
pub(crate) fn next_number(seen: &Seen) -> Result<u32, AllocError>
    ensures { IfOk result (λ n. n ≡ count seen.now) }
{
    match u32::try_from(seen.count()) {
        Ok(n) => Ok(n),
        Err(_) => Err(AllocError),
    }
}
