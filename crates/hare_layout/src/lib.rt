//! Where the bytes of a type lie, its tag, and which unions hold which.
#![tactic(auto)]

mod admitted;
mod ascending;
mod bytes;
mod copy;
mod laws;
mod members;
mod members_left;
mod offset;
mod parts;
mod payload;
mod reduce;
mod size;
mod sized;
mod spelled;
mod spread;
mod tag;

pub use admitted::admit;
pub use laws::{
    law_fields_lie_within, law_judgements_stay, law_layout_stays, law_offsets_mean_trees,
    law_payloads_lie_within, law_small_types, law_types_are_aligned, law_unions_mean_trees,
};
pub use members::subset;
pub use offset::offset_of;
pub use payload::payload_of;
pub use size::{align_of, is_small, size_of};
pub use spelled::{Bools, Places, Spelled};
pub use tag::tag_of;
