//! A step in which a declaration is judged.

/// A step. A declaration is named by its number: how many stand before it, in the order of files and source.
#[derive(Clone, Copy, Debug, PartialEq, Eq)]
pub enum Step {
    /// The types that are written in the declaration are judged.
    Types(u32),
    /// The value of the def or the global is judged, and then the declaration itself.
    Value(u32),
    /// The declaration is done: types that hold it by value may be known by it.
    Done(u32),
}
