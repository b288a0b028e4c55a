//! Which types mention no name that is not defined.
#![tactic(auto)]

mod defined;
mod laws;
mod parts;
mod search;

pub use defined::Defined;
pub use laws::law_defined_types_stay;
