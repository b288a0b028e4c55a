//! Constants: values that are known before the program runs.

use crate::cells::Cells;
use crate::shared::SharedCells;
use hx_base::Items;

/// The constant of a node, where it has one.
#[derive(Drop)]
pub enum Const {
    /// The node has none.
    Absent,
    /// The value.
    Known {
        /// The value's cells. A fragment names the object of a global by the number of its declaration, and any other object as in
        /// `objects`.
        cells: Cells,
        /// The objects of string literals, and of arrays that became slices, to which the cells lead, directly or through such objects, by
        /// ascending number.
        objects: ConstObjects,
    },
}

/// An object that belongs to a constant: that of a string literal, or of an array that a coercion made a slice.
#[derive(Drop)]
pub struct ConstObject {
    /// Its number: one more than that of the declaration in which its node stands, times 2^32, and the number of the node.
    pub object: u64,
    /// Its cells, which the constants that list the object share.
    pub cells: SharedCells,
}

/// The objects of a constant, by ascending number.
pub type ConstObjects = Items<ConstObject>;

/// Constants, such as those of the cases of a `switch`.
pub type Consts = Items<Const>;
