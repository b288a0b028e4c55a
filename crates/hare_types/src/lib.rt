//! The types of a Hare program, each stored once and named by an id.
#![tactic(auto)]

mod bytes;
mod coercion;
mod declared;
mod extent;
mod fields;
mod id;
mod kept;
mod laws;
mod lists;
mod marks;
mod measure;
mod numbering;
mod packed;
mod parts;
mod places;
mod root;
mod row;
mod settle;
mod store;
mod waiting;
mod words;

pub use coercion::{Coercion, Ty};
pub use extent::Extent;
pub use id::TypeId;
pub use laws::{law_ids_ascend, law_ids_mean_trees, law_types_stay};
pub use lists::{Field, Fields, TypeIds};
pub use row::{Row, Scalar};
pub use store::TypeStore;
