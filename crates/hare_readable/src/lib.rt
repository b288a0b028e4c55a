//! What is known of the declarations that a tree names, and whether values can be judged by it.
#![tactic(auto)]

mod paths;
mod readable;
mod taken;
mod taking;

pub use readable::is_readable;
pub use taken::make_ready;
