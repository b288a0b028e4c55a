//! A call of a function of the runtime.

ghost use Rattle.std.specs.Prelude.{◌≡◌, ℕ, [], ◌∷◌, slice_index_or, Ok, OnErr};
ghost use Rattle.std.specs.List.{All};
ghost use Rattle.hx_base.specs.Runtime.{World};
ghost use Rattle.hx_runtime.specs.declared.runtime.RuntimeFunction.TheVariants as function;
ghost use Rattle.il_acts.specs.Acts.{IsKept, Answers, AnswersCounting, CountsActs, CallsNothing};
ghost use Rattle.il_acts.specs.Blocks.{IsHeapLaid, IsOldOrInHeap};

use crate::acted::{Acted, RuntimeFault};
use crate::bytes::{abort, move_bytes, same_bytes};
use crate::heap::Heap;
use crate::input::read;
use crate::output::put;
use hx_io::{Sink, Source};
use hx_runtime::RuntimeFunction;
use il_mem::Mem;
use std::alloc::{AllocError, Global};

/// Where the table of arguments begins, and the bytes of a record in it.
const ARGUMENTS_START: u64 = 1 << 36;

const RECORD_SIZE: u64 = 24;

/// Does what a function of the runtime does with these arguments, of which one that is missing counts as 0. `arguments` is how many
/// arguments the program has.
///
/// `Err` is want of memory, and then nothing has changed. It comes only for a block, for the text of an abort, and where a page of which no
/// byte was written is written to. [`Acted::ReadFault`] and [`Acted::WriteFault`] come only where the input or the output failed in this
/// call, and nothing is called behind the first call that failed.
pub fn act<I: Source, O: Sink>(
    alloc: Global,
    memory: &mut Mem,
    heap: &mut Heap,
    arguments: u32,
    input: &mut I,
    out: &mut O,
    function: RuntimeFunction,
    args: &[u64],
) -> Result<Acted, AllocError>
    requires laid { IsHeapLaid memory.old.ranges heap.old }
    ensures done { (w : World) → IsKept memory.old heap.old arguments w → Answers (record {
      memory = memory.new;
      heap = heap.new;
      arguments = arguments;
      before = record { left = I.left input.old; written = O.written out.old };
      now = record { left = I.left input.new; written = O.written out.new };
    }) function args.now w result }
    ensures laid { IsHeapLaid memory.new.ranges heap.new }
    ensures ranges { All (IsOldOrInHeap memory.old.ranges) memory.new.ranges }
    ensures counts { CountsActs (I.faults input.old) (I.faults input.new) (O.faults out.old) (O.faults out.new) result }
    ensures outside { OnErr result ((input.new ≡ input.old) × (out.new ≡ out.old)) }
{
    let a = argument(args, 0);
    let b = argument(args, 1);
    let c = argument(args, 2);
    match function {
        RuntimeFunction::Puts => Ok(put(memory, out, a, b)),
        RuntimeFunction::Write => Ok(put(memory, out, a, b)),
        RuntimeFunction::Read => read(memory, input, a, b),
        RuntimeFunction::Malloc => heap.malloc(memory, a),
        RuntimeFunction::Free => Ok(heap.free(memory, a)),
        RuntimeFunction::Move => move_bytes(memory, a, b, c),
        RuntimeFunction::Same => Ok(same_bytes(memory, a, b, c)),
        RuntimeFunction::Abort => abort(alloc, memory, a, b),
        RuntimeFunction::Exit => Ok(exit(a)),
        RuntimeFunction::Nargs => Ok(nargs(arguments)),
        RuntimeFunction::Arg => Ok(arg(arguments, a)),
    }
}

// An argument, or 0 where it is missing.
fn argument(args: &[u64], i: usize) -> u64
    ensures { result ≡ slice_index_or args.now i 0 }
{
    args.get(i).copied().unwrap_or(0)
}

// The program exits with the low 8 bits of a status.
fn exit(status: u64) -> Acted
    ensures done { (k : ℕ) → AnswersCounting k function.Exit (status ∷ []) result }
    ensures quiet { CallsNothing (Ok result) }
{
    Acted::Exits((status % 256) as u8)
}

// How many arguments the program has.
fn nargs(arguments: u32) -> Acted
    ensures done { AnswersCounting arguments function.Nargs [] result }
    ensures quiet { CallsNothing (Ok result) }
{
    Acted::Gives {
        value: u64::from(arguments),
        moved: 0,
    }
}

// The address of the record of an argument, if there is one.
fn arg(arguments: u32, i: u64) -> Acted
    ensures done { AnswersCounting arguments function.Arg (i ∷ []) result }
    ensures quiet { CallsNothing (Ok result) }
{
    let count = u64::from(arguments);
    if i < count {
        Acted::Gives {
            value: ARGUMENTS_START + RECORD_SIZE * i,
            moved: 0,
        }
    } else {
        Acted::Faults(RuntimeFault::BadArg)
    }
}
