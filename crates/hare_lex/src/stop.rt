//! Why a file has no list of tokens.

use hare_tree::{Fault, Tokens};
use std::alloc::AllocError;

/// Why a file has no list of tokens.
#[derive(Drop)]
pub enum LexStop {
    /// The file's first break, and the tokens before it, with End at the fault's place.
    Fault { fault: Fault, kept: Tokens },
    /// There was not enough memory.
    Memory,
}

impl From<AllocError> for LexStop {
    ghost use Rattle.std.specs.Prelude.{◌≡◌};
    ghost use Rattle.hare_lex.specs.declared.stop.LexStop.TheVariants.{Memory};

    ghost from_gives = { λ _ e. e ≡ Memory };

    fn from(_error: AllocError) -> LexStop {
        LexStop::Memory
    }
}
