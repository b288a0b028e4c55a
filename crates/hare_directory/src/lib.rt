//! What the modules of a program declare and what its files import, as tables, and the first fault of these.
#![tactic(auto)]

mod directory;
mod program;

pub use directory::Directory;
pub use program::look;
