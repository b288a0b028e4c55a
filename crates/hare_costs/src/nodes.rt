//! What one copy of a node costs.

ghost use Rattle.std.specs.Prelude.{◌≡◌, ◌*◌, ◌≤◌, max};
ghost use Rattle.hare_types.specs.Layout.{round_up};
ghost use Rattle.hare_costs.specs.Costs.{own_cost};

use crate::amount::{Amount, sum};
use crate::sizes::node_size;
use hare_typed::{Typed, weight};
use hare_types::TypeStore;

/// The bytes that a frame has for each unit of weight.
const BYTES_A_UNIT: u64 = 256;

/// To a multiple of how many bytes the size of a node is rounded up.
const UNIT: u64 = 16;

/// What one copy of a node costs.
pub(crate) fn own_cost(s: &TypeStore, t: &Typed) -> Amount
    ensures { result ≡ own_cost s.now t.now }
{
    let weight = weight(s, t);
    Amount {
        weight: sum(weight, 0),
        frame: sum(weight.saturating_mul(BYTES_A_UNIT), room(node_size(s, t))),
    }
}

/// Twice a size, which takes at least one byte and is rounded up.
fn room(size: u64) -> u64
    requires { size ≤ 1099511627777 }
    ensures { result ≡ 2 * round_up (max 1 size) 16 }
{
    let taken = if size == 0 { 1 } else { size };
    2 * ((taken + (UNIT - 1)) / UNIT * UNIT)
}
