//! What is found of a node when its turn has come, and what has been seen behind it.
#![tactic(auto)]

mod bindings;
mod closing;
mod constants;
mod finding;
mod late;
mod lengths;
mod listed;
mod looked;
mod loops;
mod marks;
mod plain;
mod settle;
mod told;
mod unsettled;
mod written;
mod yields;

pub use bindings::{bind, bind_before};
pub use closing::close;
pub use constants::named_value;
pub use finding::{Finding, find_judged};
pub use late::Late;
pub use lengths::find_length;
pub use listed::Settling;
pub use looked::{look_at_binding, look_at_yield};
pub use marks::{Found, typed};
pub use plain::{find_callee, find_plain, is_plain};
pub use told::told_yields;
pub use written::find_written;
pub use yields::Levels;
