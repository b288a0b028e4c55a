//! How tokens stand in a layout.

/// Whether a token begins a line.
#[derive(Clone, Copy, Debug, PartialEq, Eq)]
pub enum Start {
    /// It stands on the line of the token before it.
    Within,
    /// It begins a line.
    Begins,
    /// It begins a line with one tab less: a closing bracket, or the word `case`.
    Outdented,
}

/// How a token stands, as the tree has it.
#[derive(Clone, Copy, Debug, PartialEq, Eq)]
pub struct Way {
    pub start: Start,
    /// How many broken braces and lists are open in front of it.
    pub depth: u32,
    /// On one line, no blank stands before it.
    pub joins_before: bool,
    /// On one line, no blank stands behind it.
    pub joins_behind: bool,
    /// A comma is added behind the token before it.
    pub comma: bool,
}
