//! What stands over a node while a body is walked: the hint that it is given, the labels round it, its role, and the number of its first
//! binding.
#![tactic(auto)]

mod asking;
mod calls;
mod frames;
mod heap;
mod jumps;
mod marks;
mod role;
mod standing;
mod statements;
mod values;

pub use role::Role;
pub use standing::Standing;
