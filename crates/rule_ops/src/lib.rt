//! The judge of literals, operators, casts, sizes and parentheses: the type of such a node and the coercions that it settles, or the first
//! row of the table of typing rules that it fails.
#![tactic(auto)]

mod common;
mod compare;
mod exact;
mod judged;
mod met;
mod numbers;
mod operands;
mod operators;
mod targets;
mod types;

pub use judged::judge;
pub use targets::asks_type;
