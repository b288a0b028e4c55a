//! The last steps of expressions.

use flat_code::{Op, Value};

/// The step that gives the value of an expression, behind the code of all others: it sets the temporary that is to hold the value.
#[derive(Clone, Copy)]
pub enum Last {
    /// The value is an operand already. Where a temporary is to hold it, it is copied.
    Operand(Value),
    /// An operation of class l on two operands.
    Operation(Op, Value, Value),
    /// How many arguments the program has.
    ArgCount,
}
