//! All types of a program are declared before any is judged, with what is seen of their sizes.
#![tactic(auto)]

mod declare;
mod entered;
mod lacking;
mod outline;
mod seen;

pub use declare::declare_all;
