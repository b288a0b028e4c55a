//! A run that has not ended.

use il_acts::Heap;
use il_engine::Engine;
use il_slots::Code;
use std::alloc::Global;

/// A run that has not ended, as a machine keeps it.
#[derive(Drop)]
pub struct Live {
    pub(crate) alloc: Global,
    /// The code of the module.
    pub(crate) code: Code,
    /// Calls, slots and memory.
    pub(crate) engine: Engine,
    pub(crate) heap: Heap,
    /// How many arguments the program has.
    pub(crate) arguments: u32,
}
