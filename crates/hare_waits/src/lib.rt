//! Written types that may turn out to be too large: such a type holds by value, behind a pointer or a slice, a name that is not defined
//! yet, and waits for that name.
#![tactic(auto)]

mod held;
mod laws;
mod lists;
mod nodes;
mod waiting;
mod waits;

pub use laws::law_waits_stay;
pub use waiting::{Late, Waiting};
pub use waits::Waits;
