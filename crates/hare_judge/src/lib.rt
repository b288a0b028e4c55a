//! The judge of any node: it asks the crate whose rules the node's kind has.
#![tactic(auto)]

mod asked;
mod judged;
mod kinds;

pub use asked::was_hinted;
pub use judged::judge;
pub use kinds::{Judge, judge_of};
