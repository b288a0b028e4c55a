//! The value of a def or a global, and then the declaration itself.
#![tactic(auto)]

mod asked;
mod judging;
mod typing;
mod value;

pub use value::{Program, judge_value};
