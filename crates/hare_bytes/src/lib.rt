//! The bytes of the globals of a program.
#![tactic(auto)]

mod declared;
mod globals;
mod sizes;
mod sliced;
mod slices;

pub use globals::bytes_of_globals;
