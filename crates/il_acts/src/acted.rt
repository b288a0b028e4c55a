//! What a function of the runtime comes to.

use hx_base::Bytes;

/// What a function of the runtime finds wrong.
#[derive(Clone, Copy, Debug, PartialEq, Eq)]
pub enum RuntimeFault {
    /// A byte that it touches is not mapped.
    Wild,
    /// No live block begins at the address that it is to free.
    BadFree,
    /// There is no argument of that number.
    BadArg,
}

/// What a call of a function of the runtime comes to.
#[derive(Drop)]
pub enum Acted {
    /// It gives a value, 0 where it has none, having moved so many bytes.
    Gives { value: u64, moved: u64 },
    /// The program exits with this status.
    Exits(u8),
    /// The program aborts with this text.
    Aborts(Bytes),
    /// It finds a fault.
    Faults(RuntimeFault),
    /// A block of the heap would end too high.
    Full,
    /// A read of the input failed. What was taken of it is not known.
    ReadFault,
    /// A write to the output failed. How much was put to it is not known.
    WriteFault,
}
