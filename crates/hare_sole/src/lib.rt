//! Over one store the phases behind names have one first fault, and none where none of them finds one.
#![tactic(auto)]

mod laws;

pub use laws::{law_one_fault_of_phases, law_typed_trees_are_one};
