//! The pieces of a text of Hare: its tokens and comments, in order, by their bytes.
#![tactic(auto)]

mod comments;
mod cut;
mod laws;
mod piece;
mod pieces;

pub use cut::pieces_of;
pub use laws::law_one_list_of_pieces;
pub use piece::Piece;
pub use pieces::Pieces;
