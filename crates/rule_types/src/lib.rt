//! The rules of written types: which type a type node writes, or the first row of the table of typing rules that it fails.
#![tactic(auto)]

mod arrays;
mod fields;
mod ids;
mod inner;
mod judged;
mod laws;
mod made;
mod members;
mod parts;
mod reads;
mod scalars;
mod unions;
mod written;

pub use judged::judge;
pub use laws::law_types_are_told;
pub use written::Written;
