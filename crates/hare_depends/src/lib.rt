//! What declarations depend on, circles among them, and the order in which they are judged.
#![tactic(auto)]

mod circles;
mod dependence;
mod edges;
mod laws;
mod said;
mod search;

pub use circles::first_circle;
pub use laws::law_one_order;
pub use said::{Numbers, Said, Sort};
pub use search::order;
