//! The operations of flat code in the intermediate language.

ghost use Rattle.std.specs.Prelude.{◌≡◌};
ghost use Rattle.il_emit.specs.Ops.{OperationsAgree, il_op, load_op};

use flat_code::{LoadKind, Op};
use il_code::IlOp;

/// Each operation of flat code gives what the operation of the same name gives, and nothing where that faults.
pub fn law_operations_agree()
    ensures { OperationsAgree }
{}

/// What loads a number by its kind, and extends it.
pub fn load_op(how: LoadKind) -> IlOp
    ensures { result ≡ load_op how }
{
    match how {
        LoadKind::Sb => IlOp::Loadsb,
        LoadKind::Ub => IlOp::Loadub,
        LoadKind::Sh => IlOp::Loadsh,
        LoadKind::Uh => IlOp::Loaduh,
        LoadKind::Sw => IlOp::Loadsw,
        LoadKind::Uw => IlOp::Loaduw,
        LoadKind::L => IlOp::Loadl,
    }
}

/// The operation of the same name.
pub fn il_op(op: Op) -> IlOp
    ensures { result ≡ il_op op }
{
    match op {
        Op::Neg => IlOp::Neg,
        Op::Copy => IlOp::Copy,
        Op::Extsb => IlOp::Extsb,
        Op::Extub => IlOp::Extub,
        Op::Extsh => IlOp::Extsh,
        Op::Extuh => IlOp::Extuh,
        Op::Extsw => IlOp::Extsw,
        Op::Extuw => IlOp::Extuw,
        Op::Add => IlOp::Add,
        Op::Sub => IlOp::Sub,
        Op::Mul => IlOp::Mul,
        Op::Div => IlOp::Div,
        Op::Rem => IlOp::Rem,
        Op::Udiv => IlOp::Udiv,
        Op::Urem => IlOp::Urem,
        Op::And => IlOp::And,
        Op::Or => IlOp::Or,
        Op::Xor => IlOp::Xor,
        Op::Shl => IlOp::Shl,
        Op::Shr => IlOp::Shr,
        Op::Sar => IlOp::Sar,
        Op::Ceqw => IlOp::Ceqw,
        Op::Ceql => IlOp::Ceql,
        Op::Cnew => IlOp::Cnew,
        Op::Cnel => IlOp::Cnel,
        Op::Cslew => IlOp::Cslew,
        Op::Cslel => IlOp::Cslel,
        Op::Csltw => IlOp::Csltw,
        Op::Csltl => IlOp::Csltl,
        Op::Csgew => IlOp::Csgew,
        Op::Csgel => IlOp::Csgel,
        Op::Csgtw => IlOp::Csgtw,
        Op::Csgtl => IlOp::Csgtl,
        Op::Culew => IlOp::Culew,
        Op::Culel => IlOp::Culel,
        Op::Cultw => IlOp::Cultw,
        Op::Cultl => IlOp::Cultl,
        Op::Cugew => IlOp::Cugew,
        Op::Cugel => IlOp::Cugel,
        Op::Cugtw => IlOp::Cugtw,
        Op::Cugtl => IlOp::Cugtl,
    }
}
