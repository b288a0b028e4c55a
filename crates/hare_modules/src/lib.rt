//! Modules of Hare: which module each file belongs to, what modules declare and what files import, and the faults of these.
//!
//! Modules have numbers here. `homes_of` gives them, `collect_uses` and `collect_claims` list the imports of a program and the names that
//! its files take, and `take_all` puts these names into tables. `first_circle`, `unknown_module`, `runtime_file`, `unknown_member` and
//! `take_all` each find the first fault of one sort.
#![tactic(auto)]

mod circles;
mod claims;
mod homes;
mod imports;
mod items;
mod looks;
mod order;
mod paths;
mod register;
mod table;
mod taken;

pub use circles::first_circle;
pub use claims::{Claim, Taker, Used, collect_claims, collect_uses};
pub use homes::homes_of;
pub use imports::Imported;
pub use items::{Entry, NOMEM};
pub use looks::{runtime_file, unknown_member, unknown_module};
pub use order::{counts_before, earlier, earlier_of, same_place};
pub use paths::{module_of, module_used};
pub use register::Register;
pub use table::Table;
pub use taken::{Taken, built_in, take_all};
