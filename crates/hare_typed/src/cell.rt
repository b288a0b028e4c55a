//! Cells, of which values and objects are made.

/// One cell of a value or of an object: a byte of eight bits, or what stands in the place of one.
#[derive(Clone, Copy, Debug, PartialEq, Eq)]
pub enum Cell {
    /// A byte.
    Byte(u8),
    /// A fragment of a pointer: the number of the object to which it leads, the offset there in bytes, and the fragment's place among the
    /// eight of its pointer, from 0.
    Fragment(u64, u64, u32),
    /// No value at all.
    Undef,
}
