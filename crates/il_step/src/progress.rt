//! How far a machine has come.

use crate::live::Live;
use hx_base::Bytes;
use il_engine::Ended;

/// How far a machine has come.
#[derive(Drop)]
pub enum Progress {
    /// It goes on.
    Live(Live),
    /// It has ended, and not in an abort.
    Ended(Ended),
    /// It has aborted with this text.
    Aborted(Bytes),
    /// A read or a write failed.
    Broken,
}
