//! The typing rules of `switch`: what it goes by, its values, and what its cases join to.
#![tactic(auto)]

mod asked;
mod covered;
mod judged;
mod labels;
mod odd;
mod operand;
mod repeated;
mod texts;
mod unmet;

pub use judged::judge;
