//! What has been seen while a body is judged: bindings by their numbers, values that were yielded, and the coercions that are settled.
#![tactic(auto)]

mod coercions;
mod seen;
mod yields;

pub use seen::{Binding, Seen};
pub use yields::Handed;
