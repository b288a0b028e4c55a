//! The phase of bodies: the one typed tree of the body of each function of a program, or the fault of the first that has one.
#![tactic(auto)]

mod bodies;
mod function;

pub use bodies::judge_bodies;
