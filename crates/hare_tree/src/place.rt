//! Places in source files, and faults that stand at them.

/// A place in a source file.
#[derive(Clone, Copy, Debug, PartialEq, Eq)]
pub struct Place {
    /// The file's number in the order of the command line, from 0.
    pub file: u32,
    /// The line, from 1. LF ends a line.
    pub line: u32,
    /// 1 and the number of bytes since the last LF: a tab counts one, and a character as many as it has bytes.
    pub column: u32,
}

/// A fault of a source file: the `E` number of its sort, and where it stands.
#[derive(Clone, Copy, Debug, PartialEq, Eq)]
pub struct Fault {
    /// The number of the sort of fault, as 7 for E7.
    pub number: u8,
    /// Where the fault stands.
    pub place: Place,
}
