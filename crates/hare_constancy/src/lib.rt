//! What typing rules give of a tree is enough to work out its constant.
#![tactic(auto)]

mod laws;

pub use laws::{
    law_defs_stay, law_met_trees_are_settled, law_objects_agree, law_texts_are_told,
    law_values_are_ready, law_well_trees_are_met,
};
