//! The memory with which a run of a module begins: its data, and the table of the program's arguments.
//!
//! [`load`] gives just the memory that the definition starts with (`il_code/specs/Addresses.antt`), kept in pages.
#![tactic(auto)]

mod arguments;
mod data;
mod pieces;
mod start;

pub use start::load;
