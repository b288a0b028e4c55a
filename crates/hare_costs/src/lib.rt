//! What functions cost as wholes: the weight of all that they are made of, and the bytes of their frames.
#![tactic(auto)]

mod amount;
mod costs;
mod leaving;
mod nodes;
mod sizes;

pub use amount::{Amount, MOST};
pub use costs::cost;
