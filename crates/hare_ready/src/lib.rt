//! By which declarations values and bodies can be judged: those whose types mention only names that are defined.
#![tactic(auto)]

mod ready;

pub use ready::{are_ready, is_named, is_ready};
