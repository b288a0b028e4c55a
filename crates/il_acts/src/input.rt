//! Input.

ghost use Rattle.std.specs.Prelude.{◌≡◌, ℕ, ◌+◌, ◌<◌, ◌^◌, [], ◌∷◌, Ok, OnErr};
ghost use Rattle.hx_runtime.specs.declared.runtime.RuntimeFunction.TheVariants as function;
ghost use Rattle.il_acts.specs.Acts.{AnswersByTaking, CountsActs};
ghost use Rattle.il_acts.specs.Blocks.{EndLow};
ghost use Rattle.il_acts.specs.Filling.{FillsOr};
ghost use Rattle.il_mem.specs.Holds.{AllHeld};

use crate::acted::{Acted, RuntimeFault};
use crate::pieces::PIECE;
use hx_io::Source;
use il_mem::{Mem, MemStop};
use std::alloc::AllocError;

/// Reads the next `n` bytes of the input, or all that are left, to an address.
pub fn read<I: Source>(
    memory: &mut Mem,
    input: &mut I,
    at: u64,
    n: u64,
) -> Result<Acted, AllocError>
    requires low { EndLow memory.old.ranges }
    ensures done { AnswersByTaking memory.old memory.new (I.left input.old) (I.left input.new) function.Read (at ∷ n ∷ []) result }
    ensures ranges { memory.new.ranges ≡ memory.old.ranges }
    ensures counts { (w : ℕ) → CountsActs (I.faults input.old) (I.faults input.new) w w result }
    ensures outside { OnErr result (input.new ≡ input.old) }
{
    if at.checked_add(n).is_none() {
        return Ok(Acted::Faults(RuntimeFault::Wild));
    }
    // Bytes that are copied to where they are stay as they are, and their pages are held.
    match memory.move_bytes(at, at, n) {
        Ok(()) => Ok(fill(memory, input, at, n)),
        Err(MemStop::Wild) => Ok(Acted::Faults(RuntimeFault::Wild)),
        Err(MemStop::Memory) => Err(AllocError),
    }
}

// Reads so many bytes to where all are mapped and held.
fn fill<I: Source>(memory: &mut Mem, input: &mut I, at: u64, n: u64) -> Acted
    requires ends { at + n < 2 ^ 64 }
    requires held { AllHeld memory.old at n }
    ensures done { FillsOr memory.old memory.new (I.left input.old) (I.left input.new) at n result }
    ensures ranges { memory.new.ranges ≡ memory.old.ranges }
    ensures counts { (w : ℕ) → CountsActs (I.faults input.old) (I.faults input.new) w w (Ok result) }
{
    let mut buf = [0; PIECE];
    let mut done = 0;
    'pieces: while done < n {
        let len = (PIECE as u64).min(n - done);
        let piece = &mut buf[..len as usize];
        let Ok(count) = input.read(piece) else {
            return Acted::ReadFault;
        };
        if count == 0 {
            return Acted::Gives {
                value: done,
                moved: done,
            };
        }
        // All bytes are mapped, and their pages are held, so this does not come.
        if memory.write(at + done, &piece[..count]).is_err() {
            return Acted::Faults(RuntimeFault::Wild);
        }
        done += count as u64;
    }
    Acted::Gives {
        value: done,
        moved: done,
    }
}
