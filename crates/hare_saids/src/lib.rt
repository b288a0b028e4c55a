//! What the declarations of a program say of one another, by what its paths mean.
#![tactic(auto)]

mod declaration;
mod kinds;
mod paths;
mod program;

pub use program::saids;
