//! The finished declarations of a program make up a well-typed whole.
#![tactic(auto)]

mod laws;

pub use laws::law_finished_are_typed;
