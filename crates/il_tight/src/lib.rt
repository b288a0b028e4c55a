//! Blocks of the intermediate language of which each begins where it must.
//!
//! [`tighten`] drops each label that no jump names, where control falls into its block, and code that nothing reaches. Temporaries that
//! are read, and that only such code sets, are set in one block behind all others. A module whose functions are tightened does what it did
//! before, step by step, but that a call of a function may cost the stack less.
#![tactic(auto)]

mod blocks;
mod labels;
mod temps;
mod wanted;

pub use blocks::tighten;
