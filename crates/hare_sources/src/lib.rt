//! The files of a program, from their bytes to their trees with what their paths mean; or the first fault of files and names.
#![tactic(auto)]

mod files;
mod laws;
mod named;

pub use files::{Sources, read_files};
pub use laws::law_one_early_fault;
pub use named::{Named, read};
