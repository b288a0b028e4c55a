//! Files of Hare: the one tree of a file, or its first fault.
#![tactic(auto)]

mod file;
mod laws;
mod source;
mod syntax;

pub use file::parse_file;
pub use laws::{law_sizes_of_sources, law_trees_of_sources};
pub use source::parse_source;
