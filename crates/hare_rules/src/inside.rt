//! What stands round a node.

use hare_tree::Word;
use hare_types::TypeId;
use hx_base::Items;

/// What a jump leaves, or goes on with.
#[derive(Clone, Copy, Debug, PartialEq, Eq)]
pub enum Target {
    /// `for`: a `break` or a `continue` means it.
    Loop,
    /// `{ }`: a `yield` means it.
    Block,
    /// The statements of a case of a `match` or a `switch`: a `yield` without a label means it.
    Case,
}

/// A tree round a node that a jump can mean.
#[derive(Drop)]
pub struct Label {
    /// Its name, or nothing.
    pub name: Word,
    /// What it is.
    pub target: Target,
    /// The number of its node.
    pub node: u32,
    /// Whether it stands inside the innermost deferred expression that is open.
    pub deferred: bool,
}

/// The labels round a node, the outermost first.
pub type Labels = Items<Label>;

/// What stands round a node.
#[derive(Drop)]
pub struct Inside {
    /// The number of the declaration in which it stands.
    pub own: u32,
    /// The type that the function gives; `never` in the value of a definition or of a global.
    pub result: TypeId,
    /// The labels round it, the outermost first.
    pub labels: Labels,
    /// Whether a deferred expression is open.
    pub deferred: bool,
    /// Whether it is the body of a function.
    pub body: bool,
}
