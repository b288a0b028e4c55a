//! What a judge of a node is told, and what it answers.

use crate::hint::Hint;
use crate::inside::Inside;
use hare_tree::{Meaning, Place};
use hare_types::{Coercion, Ty};
use hx_base::Items;

/// A value that is yielded to a block or a case.
#[derive(Clone, Copy, Debug, PartialEq, Eq)]
pub struct Yielded {
    /// Where it stands; of a `yield` without a value the place of the `yield`.
    pub place: Place,
    /// Its type, before its coercion; void where there is no value.
    pub ty: Ty,
}

/// The values that are yielded to a node, in check order.
pub type Yields = Items<Yielded>;

/// What a judge is told of a node beside its kids.
#[derive(Drop)]
pub struct Case {
    /// What is asked of its value.
    pub hint: Hint,
    /// What the names say of a Path, or of the path of a Call or StructLit.
    pub meaning: Meaning,
    /// What is yielded to it.
    pub yields: Yields,
    /// What stands round it.
    pub inside: Inside,
}

/// Coercions, in the order of the source.
pub type Coercions = Items<Coercion>;

/// What a node that meets its rows is found to be.
#[derive(Drop)]
pub struct Verdict {
    /// The type of what it gives, before its coercion.
    pub ty: Ty,
    /// What becomes of that at its site: of a node without a hint of a type it stays as it is.
    pub own: Coercion,
    /// What becomes of each kid that was given no hint of a type, and then of each value that was yielded to it without one.
    pub coerce: Coercions,
}
