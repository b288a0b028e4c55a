//! Why a call that reads the language gives up.

use std::alloc::AllocError;

/// What stopped a call: a fault of its input, or want of memory.
#[derive(Debug, Drop, PartialEq, Eq)]
pub enum Stop<F> {
    Fault(F),
    Memory,
}

impl<F> From<AllocError> for Stop<F> {
    ghost use Rattle.std.specs.Prelude.{◌≡◌};
    ghost use Rattle.il_code.specs.declared.stop.Stop.TheVariants.{Memory};

    ghost from_gives = { λ _ e. e ≡ Memory };

    fn from(_: AllocError) -> Stop<F> {
        Stop::Memory
    }
}
