//! The operands of flat code.

use hx_base::Items;

/// An operand.
#[derive(Clone, Copy, Debug, PartialEq, Eq)]
pub enum Value {
    /// What a temporary of the function holds.
    Temp(u32),
    /// A constant, as its bits.
    Number(u64),
    /// The address so many bytes behind the start of a global, which is named by its place in the list of globals.
    Symbol(u32, u64),
    /// The address so many bytes behind the start of the call's frame.
    Frame(u64),
}

/// The arguments of a call.
pub type Values = Items<Value>;
