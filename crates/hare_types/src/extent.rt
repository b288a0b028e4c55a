//! How many bytes a value takes.

/// How many bytes a value takes, and of what its address is a multiple.
#[derive(Clone, Copy, Debug, PartialEq, Eq)]
pub struct Extent {
    pub size: u64,
    pub align: u64,
}
