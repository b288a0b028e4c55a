//! What stands round a node asks of it.

use hare_types::TypeId;

/// What a node is asked to give.
#[derive(Clone, Copy, Debug, PartialEq, Eq)]
pub enum Hint {
    /// Nothing is asked.
    None,
    /// Its value is dropped, so it may hold no error.
    Drop,
    /// A value that may be assigned to this type.
    Of(TypeId),
}
