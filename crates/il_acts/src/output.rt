//! Output.

ghost use Rattle.std.specs.Prelude.{ℕ, [], ◌∷◌, Ok};
ghost use Rattle.hx_runtime.specs.declared.runtime.RuntimeFunction.TheVariants as function;
ghost use Rattle.il_acts.specs.Acts.{AnswersByPutting, CountsActs};
ghost use Rattle.il_acts.specs.Blocks.{EndLow};

use crate::acted::{Acted, RuntimeFault};
use crate::pieces::{PIECE, is_mapped};
use hx_io::{Sink, write_all};
use il_mem::Mem;

/// Puts the `n` bytes from an address on to the output.
pub fn put<O: Sink>(memory: &Mem, out: &mut O, at: u64, n: u64) -> Acted
    requires low { EndLow memory.now.ranges }
    ensures done { AnswersByPutting memory.now (O.written out.old) (O.written out.new) function.Puts (at ∷ n ∷ []) result }
    ensures counts { (r : ℕ) → CountsActs r r (O.faults out.old) (O.faults out.new) (Ok result) }
{
    if !is_mapped(memory, at, n) {
        return Acted::Faults(RuntimeFault::Wild);
    }
    let mut buf = [0; PIECE];
    let mut done = 0;
    'pieces: while done < n {
        let len = (PIECE as u64).min(n - done);
        let piece = &mut buf[..len as usize];
        // All bytes are mapped, so this does not come.
        if memory.read(at + done, piece).is_err() {
            return Acted::Faults(RuntimeFault::Wild);
        }
        if write_all(out, piece).is_err() {
            return Acted::WriteFault;
        }
        done += len;
    }
    Acted::Gives { value: 0, moved: n }
}
