//! The typing rules of calls, of bindings, of what asks of a value which member of a union it is, and of what leaves.
#![tactic(auto)]

mod bindings;
mod calls;
mod control;
mod declarations;
mod hinted;
mod jumps;
mod leaves;
mod tries;
mod types;
mod unions;
mod unmet;

pub use control::judge;
pub use declarations::judge_declaration;
pub use hinted::asks_type;
