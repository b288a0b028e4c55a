//! How pieces stand in a layout.

/// How many line ends stand in front of a piece.
#[derive(Clone, Copy, Debug, PartialEq, Eq)]
pub enum Feeds {
    /// None: the piece stands on the line of the piece before it.
    Same,
    /// One.
    Next,
    /// More: an empty line stands in front of it.
    Empty,
}

/// What stands between a piece and the one before it.
#[derive(Clone, Copy, Debug, PartialEq, Eq)]
pub enum Gap {
    /// Nothing: the piece is the first of the file.
    First,
    /// Nothing.
    Join,
    /// One blank.
    Blank,
    /// A line end, and an empty line or none, and so many tabs.
    Line(bool, usize),
}

/// What stands before a piece.
#[derive(Clone, Copy, Debug, PartialEq, Eq)]
pub enum Before {
    /// Nothing: the piece is the first.
    Nothing,
    /// A token `{`, `(` or `[`.
    Opening,
    /// A comment.
    Remark,
    /// Any other token.
    Other,
}
