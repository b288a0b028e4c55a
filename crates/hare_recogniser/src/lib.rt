//! The gauge of depth as a program: the first token of a list at which a limit on depth is passed, told before any tree is built.
#![tactic(auto)]

mod agenda;
mod change;
mod depth;
mod found;
mod frame;
mod gauge;
mod nodes;
mod run;
mod step;
mod width;

pub use depth::{depth_fault, depth_fault_of_file};
