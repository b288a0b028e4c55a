//! From the files of a program to their bytes, where the program that they are is checked; or to why it is not.
#![tactic(auto)]

mod files;
mod judged;
mod stopped;
mod top;

pub use files::read_all;
pub use judged::refused;
pub use stopped::{Refusal, Stopped};
pub use top::check;
