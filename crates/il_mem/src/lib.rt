//! The memory of a machine: flat memory, kept in pages that are made at the first write to them, and in ranges of mapped addresses.
//!
//! A memory holds a flat memory (`specs/Holds.antt`), and each call does to the one what its definition does to the other. Where a call
//! answers [`Wild`] or [`MemStop`], nothing has changed.
//!
//! A load or a store looks its range and its page up, and then does constant work; copies, comparisons and clearing go page by page.
//! Nothing else takes time by the size of a range.
#![tactic(auto)]

mod copies;
mod mem;
mod pages;
mod ranges;
mod stack;
mod stop;
mod windows;

pub use mem::Mem;
pub use pages::PAGE;
pub use stop::{MemStop, Wild};
