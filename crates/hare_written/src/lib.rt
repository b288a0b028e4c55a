//! Types that are written in declarations: the typed tree of each by the typing rules, or its first fault, also while names in it are not
//! defined.
#![tactic(auto)]

mod around;
mod env;
mod finding;
mod kinds;
mod lengths;
mod meanings;
mod named;
mod roles;
mod turn;
mod walk;
mod written;

pub use written::judge_written;
