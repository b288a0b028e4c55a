//! The typing rules of `match`.
#![tactic(auto)]

mod cases;
mod covered;
mod distinct;
mod fitting;
mod judged;
mod listed;
mod patterns;
mod unmet;

pub use judged::judge;
