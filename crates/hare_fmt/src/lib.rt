//! Laying out a file of Hare.
#![tactic(auto)]

mod source;

pub use source::format;
