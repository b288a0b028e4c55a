//! The commas that a layout adds behind the last items of lists.
#![tactic(auto)]

mod laws;

pub use laws::{law_commas_stand_in_trees, law_ways_ask_at_marks};
