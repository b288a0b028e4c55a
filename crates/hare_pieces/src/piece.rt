//! A piece of a text.

/// A token or a comment, by its bytes.
#[derive(Clone, Copy, Debug, PartialEq, Eq)]
pub struct Piece {
    /// How many bytes stand before it.
    pub from: usize,
    /// How many bytes stand before its end.
    pub to: usize,
    /// Whether it is a comment: from `//` to before the end of its line.
    pub comment: bool,
}
