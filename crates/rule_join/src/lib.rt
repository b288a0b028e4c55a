//! The typing rules of nodes whose type joins what branches, cases and yields give, and of loops.
#![tactic(auto)]

mod asked;
mod blocks;
mod cases;
mod joins;
mod judged;
mod loops;
mod types;
mod unmet;
mod values;

pub use asked::asks_type;
pub use cases::{asks_case, case_misfit, case_target, cases_type};
pub use judged::judge;
