//! The functions of the runtime, done over memory in pages and the outside.
//!
//! A call of [`act`] does what the definition of its function does (`hx_runtime/specs/Functions.antt`, `hx_base/specs/Runtime.antt`) to
//! memory, the heap, the input and the output that it is given (`specs/Acts.antt`). Where memory is wanted, nothing was done.
#![tactic(auto)]

mod acted;
mod bytes;
mod call;
mod heap;
mod input;
mod output;
mod pieces;

pub use acted::{Acted, RuntimeFault};
pub use call::act;
pub use heap::Heap;
