//! What the evaluation of a node of a constant comes to.

use hare_typed::Cells;

/// What the evaluation of a node comes to where no program runs.
#[derive(Drop)]
pub(crate) enum Outcome {
    /// The cells of its value.
    Known(Cells),
    /// An abort: a divisor is zero.
    Aborts,
    /// An undefined act, which no tree has that was checked.
    Undefined,
}
