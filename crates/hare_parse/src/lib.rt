//! The parser of Hare: the machine that the grammar's table drives.
#![tactic(auto)]

mod change;
mod file;
mod group;
mod parse;
mod reader;
mod run;
mod step;
mod whole;

pub use file::{FileOutcome, LowFile, read_file, read_low_file};
pub use parse::{Parsed, parse_expr, parse_type};
