//! Copies, comparisons and the text of an abort.

ghost use Rattle.std.specs.Prelude.{◌≡◌, ℕ, [], ◌∷◌, Ok};
ghost use Rattle.hx_runtime.specs.declared.runtime.RuntimeFunction.TheVariants as function;
ghost use Rattle.il_acts.specs.Acts.{AnswersAlone, CallsNothing};
ghost use Rattle.il_acts.specs.Blocks.{Blocks, EndLow};

use crate::acted::{Acted, RuntimeFault};
use crate::pieces::{PIECE, is_mapped};
use hx_base::Bytes;
use il_mem::{Mem, MemStop};
use std::alloc::{AllocError, Global};

/// Copies bytes.
pub fn move_bytes(memory: &mut Mem, to: u64, from: u64, n: u64) -> Result<Acted, AllocError>
    ensures done { (heap : Blocks) → AnswersAlone memory.old memory.new heap heap function.Move (to ∷ from ∷ n ∷ []) result }
    ensures quiet { CallsNothing result }
    ensures ranges { memory.new.ranges ≡ memory.old.ranges }
{
    match memory.move_bytes(to, from, n) {
        Ok(()) => Ok(Acted::Gives { value: 0, moved: n }),
        Err(MemStop::Wild) => Ok(Acted::Faults(RuntimeFault::Wild)),
        Err(MemStop::Memory) => Err(AllocError),
    }
}

/// Compares bytes.
pub fn same_bytes(memory: &Mem, a: u64, b: u64, n: u64) -> Acted
    ensures done { (heap : Blocks) → AnswersAlone memory.now memory.now heap heap function.Same (a ∷ b ∷ n ∷ []) (Ok result) }
    ensures quiet { CallsNothing (Ok result) }
{
    match memory.same(a, b, n) {
        Ok(equal) => Acted::Gives {
            value: u64::from(equal),
            moved: n,
        },
        Err(_) => Acted::Faults(RuntimeFault::Wild),
    }
}

/// The program aborts with the `n` bytes from an address on as text.
pub fn abort(alloc: Global, memory: &Mem, at: u64, n: u64) -> Result<Acted, AllocError>
    requires low { EndLow memory.now.ranges }
    ensures done { (heap : Blocks) → AnswersAlone memory.now memory.now heap heap function.Abort (at ∷ n ∷ []) result }
    ensures quiet { CallsNothing result }
{
    if !is_mapped(memory, at, n) {
        return Ok(Acted::Faults(RuntimeFault::Wild));
    }
    let mut text = Bytes::new(alloc);
    let mut buf = [0; PIECE];
    let mut done = 0;
    'pieces: while done < n {
        let len = (PIECE as u64).min(n - done);
        let piece = &mut buf[..len as usize];
        // All bytes are mapped, so this does not come.
        if memory.read(at + done, piece).is_err() {
            return Ok(Acted::Faults(RuntimeFault::Wild));
        }
        text.extend(piece)?;
        done += len;
    }
    Ok(Acted::Aborts(text))
}
