//! How each token of a file stands in the one layout of the file, from its tree.
#![tactic(auto)]

mod breaks;
mod count;
mod edge;
mod file;
mod inside;
mod joins;
mod kinds;
mod laws;
mod part;
mod single;
mod walk;
mod way;

pub use file::file_ways;
pub use laws::law_each_token_has_a_way;
pub use way::{Start, Way};
