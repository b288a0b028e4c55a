//! What the names that a file imports stand for.

/// What a name that a file imports stands for.
#[derive(Clone, Copy, Debug, PartialEq, Eq)]
pub struct Imported {
    /// The number of the module, where it is known.
    pub number: Option<usize>,
    /// Whether the name stands for the module itself, and not for the member of that name.
    pub whole: bool,
}
