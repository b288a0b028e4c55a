//! Why a call gave no answer: a fault of its input, or want of memory.

use std::alloc::{AllocError, AllocFailed};

/// Why a call stopped.
#[derive(Debug, Drop)]
pub enum Stop<F> {
    /// The input has this fault.
    Fault(F),
    /// There was not enough memory.
    Memory,
}

impl<F> From<AllocError> for Stop<F> {
    ghost use Rattle.std.specs.Prelude.{◌≡◌};
    ghost use Rattle.hare_tree.specs.declared.stop.Stop.TheVariants.{Memory};

    ghost from_gives = { λ _ e. e ≡ Memory };

    fn from(_error: AllocError) -> Stop<F> {
        Stop::Memory
    }
}

impl<F, T: Drop> From<AllocFailed<T>> for Stop<F> {
    ghost use Rattle.std.specs.Prelude.{◌≡◌};
    ghost use Rattle.hare_tree.specs.declared.stop.Stop.TheVariants.{Memory};

    ghost from_gives = { λ _ e. e ≡ Memory };

    fn from(_error: AllocFailed<T>) -> Stop<F> {
        Stop::Memory
    }
}
