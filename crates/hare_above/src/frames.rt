//! What is kept of a tree while the walk is inside of it.

use crate::role::Role;
use hare_rules::{Hint, Labels};

/// What stands over a tree while the walk is inside of it, but for its labels, which are the first of those in use.
#[derive(Drop)]
pub(crate) struct Frame {
    pub(crate) hint: Hint,
    pub(crate) values: Hint,
    pub(crate) deferred: bool,
    pub(crate) body: bool,
    pub(crate) role: Role,
    pub(crate) first: u32,
    pub(crate) begins: u32,
    /// How many labels stand round the tree.
    pub(crate) labels: usize,
    /// These labels with their marks, where the tree is a deferred expression, in which they lose them.
    pub(crate) kept: Option<Labels>,
}
