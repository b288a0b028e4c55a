//! What comes of one token.

/// What came of a token.
#[derive(Clone, Copy, Debug, PartialEq, Eq)]
pub enum Answer {
    /// It is used.
    Goes,
    /// Nothing is waited for.
    Ends,
    /// It cannot stand here.
    Stuck,
}
