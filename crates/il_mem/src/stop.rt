//! Why an access to memory stops.

use thiserror::Error;

/// A byte that an access touches is not mapped.
#[derive(Clone, Copy, Debug, PartialEq, Eq, Error)]
#[error("an address is not mapped")]
pub struct Wild;

/// Why a change of memory stops. Nothing has changed then.
#[derive(Clone, Copy, Debug, PartialEq, Eq, Error)]
pub enum MemStop {
    /// A byte that it touches is not mapped.
    #[error("an address is not mapped")]
    Wild,
    /// There is no memory for a page.
    #[error("out of memory")]
    Memory,
}
