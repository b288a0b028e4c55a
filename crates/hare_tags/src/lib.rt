//! The list of the types that have tags.
#![tactic(auto)]

mod allocated;
mod rows;
mod tags;
mod written;

pub use tags::list_tags;
