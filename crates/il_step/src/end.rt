//! What a run answers.

use il_code::MachineFault;

/// What a run of a machine with a budget answers.
#[derive(Clone, Copy, Debug, PartialEq, Eq)]
pub enum End {
    /// The program exits with this status. The machine stays there.
    Exit(u8),
    /// The program aborts, and the machine keeps the text. It stays there.
    Abort,
    /// The machine finds a fault of the program. It stays there.
    Fault(MachineFault),
    /// The stack is full, or a block of the heap would end too high. The machine stays there.
    StackFull,
    /// The units of this run are used before another end comes. A further run goes on from there.
    Spent,
    /// A read of the input failed. The machine is broken.
    ReadFault,
    /// A write to the output failed. The machine is broken.
    WriteFault,
    /// Memory was short. The machine stands before an instruction that was not begun, and a further run begins with it.
    Memory,
}
