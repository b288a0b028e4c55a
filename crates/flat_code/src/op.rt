//! The operations of flat code, and the ways to load a number.

/// An operation on two operands, named by its word in the QBE IL reference. One that the reference has on one operand has 0 as its second.
///
/// The names of comparisons are `c`, the relation, and the class at which both operands are read. A relation begins with `s` where the
/// operands are signed and with `u` where they are not, and ends with `le`, `lt`, `ge` or `gt`. A comparison gives 1 where it holds, else
/// 0.
#[derive(Clone, Copy, Debug, PartialEq, Eq)]
pub enum Op {
    // One operand.
    /// 0 less the operand.
    Neg,
    /// The operand.
    Copy,
    /// The low 8, 16 or 32 bits of the operand, signed (`s`) or not (`u`).
    Extsb,
    Extub,
    Extsh,
    Extuh,
    Extsw,
    Extuw,

    // Two operands.
    Add,
    Sub,
    Mul,
    /// The quotient of signed numbers, rounded toward 0, and its remainder.
    Div,
    Rem,
    /// The quotient of unsigned numbers, rounded down, and its remainder.
    Udiv,
    Urem,
    And,
    Or,
    Xor,
    /// The first operand shifted by the second modulo the width: up, down with zeros coming in, and down with copies of the sign coming in.
    Shl,
    Shr,
    Sar,

    // Comparisons.
    Ceqw,
    Ceql,
    Cnew,
    Cnel,
    Cslew,
    Cslel,
    Csltw,
    Csltl,
    Csgew,
    Csgel,
    Csgtw,
    Csgtl,
    Culew,
    Culel,
    Cultw,
    Cultl,
    Cugew,
    Cugel,
    Cugtw,
    Cugtl,
}

/// How a number is loaded: 1 byte (`b`), 2 (`h`), 4 (`w`) or 8 (`l`), the lowest first, and read as signed (`s`) or not (`u`).
#[derive(Clone, Copy, Debug, PartialEq, Eq)]
pub enum LoadKind {
    Sb,
    Ub,
    Sh,
    Uh,
    Sw,
    Uw,
    L,
}
