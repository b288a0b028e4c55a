//! Laying out a file again changes nothing.
#![tactic(auto)]

mod laws;

pub use laws::{
    law_comments_stay, law_gaps_are_read, law_layouts_are_laid_out, law_layouts_have_parts,
    law_layouts_stay, law_pieces_stay, law_texts_are_read,
};
