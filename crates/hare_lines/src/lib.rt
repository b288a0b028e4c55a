//! The one layout of a file of Hare.
#![tactic(auto)]

mod comments;
mod laws;
mod line;
mod read;
mod way;
mod write;

pub use comments::comments_before;
pub use laws::{
    law_blanks_are_needed, law_gaps_stay, law_one_layout, law_pieces_are_in_order,
    law_pieces_are_kept,
};
pub use way::{Before, Feeds, Gap};
pub use write::write_pieces;
