//! The phase of declarations: all are judged in the steps of a plan, up to the first fault.
#![tactic(auto)]

mod begin;
mod done;
mod end;
mod judge;
mod laws;
mod parts;
mod slots;
mod sorts;
mod state;
mod types;
mod value;

pub use judge::judge_declarations;
pub use parts::{Judged, Parts};
