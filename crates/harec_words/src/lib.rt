//! The words behind the program's name, read as a command, and the line of a fault.
#![tactic(auto)]

mod command;
mod fault;
mod laws;
mod path;
mod reading;
mod units;

pub use command::{Command, Span, command_of};
pub use fault::fault_text;
pub use laws::law_one_command;
