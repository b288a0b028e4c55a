//! What declarations say of one another.

use hare_tree::Place;
use hx_base::Items;

/// What a declaration is to those that depend on it.
#[derive(Clone, Copy, Debug, PartialEq, Eq)]
pub enum Sort {
    /// A type.
    Type,
    /// A function, of which its signature alone is judged before bodies are.
    Function,
    /// A def, or a global without a written type: others have its type from its value.
    Constant,
    /// A global with a written type: others have its type from there, and its value later.
    Global,
}

/// Numbers of declarations: how many stand before each, in the order of files and source.
pub type Numbers = Items<u32>;

/// What a declaration says of others.
#[derive(Drop)]
pub struct Said {
    /// What it is.
    pub sort: Sort,
    /// Where its name stands.
    pub place: Place,
    /// The types that it holds by value or spreads, and the defs that are lengths of its arrays.
    pub needed: Numbers,
    /// All that it names, in its types and in its value; of a function all that its signature names.
    pub named: Numbers,
    /// All that its written type names; of a def and of a global alone.
    pub written: Numbers,
}
