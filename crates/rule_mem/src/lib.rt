//! The typing rules of places, aggregates and the heap.
#![tactic(auto)]

mod allocs;
mod arrays;
mod deletes;
mod fill;
mod hinted;
mod hints;
mod ids;
mod literals;
mod members;
mod memory;
mod paths;
mod reached;
mod reads;
mod rows;
mod tuples;
mod types;
mod unmet;

pub use hinted::asks_type;
pub use hints::{hinted_components, hinted_element, object_asked};
pub use members::field_of;
pub use memory::judge;
pub use reads::slice_element;
