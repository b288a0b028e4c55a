//! Why the program of some files was not checked.

use hare_tree::Fault;
use hx_base::Text;
use std::alloc::AllocError;

/// Why the program of some files was not checked.
#[derive(Drop)]
pub enum Stopped {
    /// The program has a fault.
    Refused(Refusal),
    /// A file was not read. The number, counted from 0, is that of one of the paths.
    Unread(usize),
    /// There was not enough memory.
    Memory,
}

/// A fault of a program, with its line.
#[derive(Drop)]
pub struct Refusal {
    pub fault: Fault,
    /// `PATH:LINE:COLUMN: E25 NotAssignable` and a line feed, with the path that names the file of the fault.
    pub line: Text,
}

impl From<AllocError> for Stopped {
    ghost use Rattle.std.specs.Prelude.{◌≡◌};
    ghost use Rattle.harec_check.specs.declared.stopped.Stopped.TheVariants.{Memory};

    ghost from_gives = { λ _ e. e ≡ Memory };

    fn from(_error: AllocError) -> Stopped {
        Stopped::Memory
    }
}
