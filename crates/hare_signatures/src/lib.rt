//! The types that are written in a declaration, judged one behind another.
#![tactic(auto)]

mod listed;
mod signature;

pub use signature::judge_types;
