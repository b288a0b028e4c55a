//! Why a run stops, and what a call of the runtime comes to.

use hx_base::Bytes;
use il_engine::Ended;

/// Why a run stops.
#[derive(Drop)]
pub enum Stop {
    /// No unit is left. The last step has taken so many more than there were.
    Spent(u64),
    /// It has ended, and not in an abort.
    Ends(Ended),
    /// It has aborted with this text.
    Aborts(Bytes),
    /// A read of the input failed.
    ReadFault,
    /// A write to the output failed.
    WriteFault,
}

/// What a call of the runtime comes to.
#[derive(Drop)]
pub enum Reply {
    /// The run goes on behind it, for one unit and so many more.
    On(u64),
    /// It has ended, and not in an abort.
    Ends(Ended),
    /// It has aborted with this text.
    Aborts(Bytes),
    /// A read of the input failed.
    ReadFault,
    /// A write to the output failed.
    WriteFault,
}
