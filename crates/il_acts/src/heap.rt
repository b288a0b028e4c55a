//! The heap: which blocks are live, and where the next one begins.

ghost use Rattle.std.specs.Prelude.{◌≡◌, ℕ, ◌+◌, ◌<◌, ◌≤◌, List, [], ◌∷◌, OnOk, OnErr};
ghost use Rattle.std.specs.List.{All};
ghost use Rattle.hx_base.specs.Memory.{round_up};
ghost use Rattle.hx_base.specs.Runtime.{World, heap_start, heap_end, heap_size, new_block};
ghost use Rattle.hx_runtime.specs.declared.runtime.RuntimeFunction.TheVariants as function;
ghost use Rattle.il_acts.specs.Acts.{IsKept, AnswersAlone, CallsNothing};
ghost use Rattle.il_acts.specs.Blocks.{HeapHolds, IsHeapLaid, IsOldOrInHeap};

use crate::acted::{Acted, RuntimeFault};
use hx_base::round_up;
use il_mem::Mem;
use std::alloc::{AllocError, Global};
use std::collections::BTreeMap;
use std::marker::Model;

// Where the first block begins, above which no block ends, and how many bytes live blocks have at most.
const HEAP_START: u64 = 1 << 48;

const HEAP_END: u64 = 1 << 63;

const HEAP_SIZE: u64 = 67_108_864;

/// The live blocks of the heap. To make a block takes constant work beside one look-up among the live ones; to free one, beside that, what
/// clearing its bytes takes.
#[derive(Drop)]
pub struct Heap {
    next: u64,
    blocks: BTreeMap<u64, u64>,
    live: u64,
}

impl Model for Heap {
    ghost use Rattle.il_acts.specs.Blocks.{Blocks};

    ghost Value = { Blocks };

    ghost view = { λ a. record { next = a.next; blocks = a.blocks.entries; live = a.live } };
}

impl Heap {
    /// A heap without blocks. Takes no memory.
    pub fn new(alloc: Global) -> Heap
        ensures holds { HeapHolds result (record { next = heap_start; blocks = [] }) }
        ensures laid { (ranges : List (ℕ × ℕ)) → All (λ r. r.1 ≤ heap_start) ranges → IsHeapLaid ranges result }
    {
        Heap {
            next: HEAP_START,
            blocks: BTreeMap::new(alloc),
            live: 0,
        }
    }

    /// A new block of `n` bytes, of one at least.
    pub(crate) fn malloc(&mut self, memory: &mut Mem, n: u64) -> Result<Acted, AllocError>
        requires laid { IsHeapLaid memory.old.ranges self.old }
        ensures done { AnswersAlone memory.old memory.new self.old self.new function.Malloc (n ∷ []) result }
        ensures quiet { CallsNothing result }
        ensures laid { IsHeapLaid memory.new.ranges self.new }
        ensures ranges { All (IsOldOrInHeap memory.old.ranges) memory.new.ranges }
    {
        let size = n.max(1);
        if size > HEAP_SIZE {
            return Ok(Acted::Gives { value: 0, moved: 0 });
        }
        let rounded = round_up(size, 16);
        if self.live + rounded > HEAP_SIZE {
            return Ok(Acted::Gives { value: 0, moved: 0 });
        }
        if self.next + size > HEAP_END {
            return Ok(Acted::Full);
        }
        let at = self.next;
        self.add(memory, size, rounded)?;
        Ok(Acted::Gives {
            value: at,
            moved: 0,
        })
    }

    // Makes a block of so many bytes where the next one begins.
    fn add(&mut self, memory: &mut Mem, size: u64, rounded: u64) -> Result<(), AllocError>
        requires laid { IsHeapLaid memory.old.ranges self.old }
        requires some { 0 < size }
        requires rounded { rounded ≡ round_up size 16 }
        requires few { self.old.live + rounded ≤ heap_size }
        requires low { self.old.next + size ≤ heap_end }
        ensures done { (count : ℕ) (w : World) → IsKept memory.old self.old count w →
            OnOk result (IsKept memory.new self.new count (new_block w size)) }
        ensures laid { IsHeapLaid memory.new.ranges self.new }
        ensures ranges { All (IsOldOrInHeap memory.old.ranges) memory.new.ranges }
        ensures err { OnErr result ((memory.new ≡ memory.old) × (self.new ≡ self.old)) }
    {
        let at = self.next;
        self.blocks.insert(at, size)?;
        if memory.map(at, size).is_err() {
            self.blocks.remove(&at);
            return Err(AllocError);
        }
        self.next += rounded;
        self.live += rounded;
        Ok(())
    }

    /// Frees the live block that begins at an address.
    pub(crate) fn free(&mut self, memory: &mut Mem, at: u64) -> Acted
        requires laid { IsHeapLaid memory.old.ranges self.old }
        ensures done { AnswersAlone memory.old memory.new self.old self.new function.Free (at ∷ []) (Ok result) }
        ensures quiet { CallsNothing (Ok result) }
        ensures laid { IsHeapLaid memory.new.ranges self.new }
        ensures ranges { All (IsOldOrInHeap memory.old.ranges) memory.new.ranges }
    {
        let Some(n) = self.blocks.remove(&at) else {
            return Acted::Faults(RuntimeFault::BadFree);
        };
        memory.unmap(at, n);
        memory.clear(at, n);
        self.live -= round_up(n, 16);
        Acted::Gives { value: 0, moved: 0 }
    }
}
