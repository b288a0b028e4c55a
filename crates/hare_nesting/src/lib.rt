//! Where the limits on depth are passed in a list of tokens.
#![tactic(auto)]

mod laws;

pub use laws::{law_depth_faults, law_depth_of_files, law_shallow_trees};
