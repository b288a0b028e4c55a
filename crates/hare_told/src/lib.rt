//! What a judge is told of a node is enough to judge it, and what it answers is enough to go on.
#![tactic(auto)]

mod laws;

pub use laws::{law_told_is_enough, law_verdicts_settle};
