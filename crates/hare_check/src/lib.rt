//! The checker of bodies and of values of declarations: the one typed tree of each by the typing rules, or its first fault.
#![tactic(auto)]

mod beginnings;
mod check;
mod closing;
mod finding;
mod folding;
mod known;
mod looking;
mod meanings;
mod numbers;
mod value;
mod walker;

pub use check::{Env, check_body};
pub use value::check_value;
