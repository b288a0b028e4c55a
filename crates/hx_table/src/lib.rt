//! Tables of names, in which a name is looked up by a hash and which contracts see as lists.
#![tactic(auto)]

mod table;

pub use table::Table;
