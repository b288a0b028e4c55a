//! Copies of typed trees, and of what is known of a declaration.
#![tactic(auto)]

mod constants;
mod known;
mod trees;

pub use constants::copy_constant;
pub use known::copy_known;
pub use trees::{copy_kids, copy_tree};
