//! The grammar of Hare as a table: what each rule does at each class of token.
#![tactic(auto)]

mod class;
mod laws;
mod rule;

pub use class::Class;
pub use laws::{law_one_file, law_one_tree, law_places};
pub use rule::{Change, Rule, Symbol};
