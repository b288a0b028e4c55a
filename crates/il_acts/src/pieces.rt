//! Pieces of memory.

ghost use Rattle.std.specs.Prelude.{◌≡◌, ℕ, ◌+◌, ◌<◌, ◌^◌};
ghost use Rattle.std.specs.Bool.{OnTrue};
ghost use Rattle.hx_base.specs.Memory.{Memory, all_mapped};
ghost use Rattle.il_mem.specs.Holds.{Holds};
ghost use Rattle.il_acts.specs.Blocks.{EndLow};

use il_mem::Mem;

/// How many bytes are read or written at once.
pub const PIECE: usize = 4096;

/// Whether all `n` bytes from an address on are mapped.
pub fn is_mapped(memory: &Mem, at: u64, n: u64) -> bool
    requires low { EndLow memory.now.ranges }
    ensures value { (m : Memory) → Holds memory.now m → result ≡ all_mapped m at n }
    ensures ends { OnTrue result (at + n < 2 ^ 64) }
{
    let Some(_end) = at.checked_add(n) else {
        return false;
    };
    memory.same(at, at, n).is_ok()
}
