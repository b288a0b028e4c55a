//! Names of Hare: what each path of a program means, or the first violation of its names.
#![tactic(auto)]

mod doubled;
mod kinds;
mod laws;
mod locals;
mod names;
mod notes;
mod places;
mod program;
mod rising;
mod verdict;
mod walk;

pub use laws::{law_bindings_ascend, law_locals_are_in_scope};
pub use names::Names;
pub use program::{Files2, resolve};
