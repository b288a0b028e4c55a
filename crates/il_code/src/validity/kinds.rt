//! Kinds of operations, by their operands and their result.

ghost use Rattle.std.specs.Prelude.{◌≡◌};
ghost use Rattle.il_code.specs.Classes.{op_kind, takes_two, first_class, second_class, may_give};

use crate::op::IlOp;
use hx_base::Class;

/// What an operation takes and gives.
#[derive(Clone, Copy, Debug, PartialEq, Eq)]
pub enum OpKind {
    /// Takes one operand at the class of the result.
    Plain,
    /// Takes a count of bytes and gives an address.
    Alloc,
    /// Takes a word, of which it extends a part.
    Extend,
    /// Takes a word and gives a long.
    ExtendWord,
    /// Takes an address.
    Load,
    /// Takes an address and gives a long.
    LoadLong,
    /// Takes two operands at the class of the result.
    Arithmetic,
    /// Takes an operand at the class of the result, and a word.
    Shift,
    /// Takes two words.
    CompareWords,
    /// Takes two longs.
    CompareLongs,
}

/// The kind of an operation.
pub fn kind(op: IlOp) -> OpKind
    ensures { result ≡ op_kind op }
{
    match op {
        IlOp::Neg | IlOp::Copy => OpKind::Plain,
        IlOp::Alloc4 | IlOp::Alloc8 | IlOp::Alloc16 => OpKind::Alloc,
        IlOp::Extsb | IlOp::Extub | IlOp::Extsh | IlOp::Extuh => OpKind::Extend,
        IlOp::Extsw | IlOp::Extuw => OpKind::ExtendWord,
        IlOp::Loadsb | IlOp::Loadub | IlOp::Loadsh | IlOp::Loaduh | IlOp::Loadsw | IlOp::Loaduw =>
            OpKind::Load,
        IlOp::Loadl => OpKind::LoadLong,
        IlOp::Add
        | IlOp::Sub
        | IlOp::Mul
        | IlOp::Div
        | IlOp::Rem
        | IlOp::Udiv
        | IlOp::Urem
        | IlOp::And
        | IlOp::Or
        | IlOp::Xor => OpKind::Arithmetic,
        IlOp::Shl | IlOp::Shr | IlOp::Sar => OpKind::Shift,
        IlOp::Ceqw
        | IlOp::Cnew
        | IlOp::Cslew
        | IlOp::Csltw
        | IlOp::Csgew
        | IlOp::Csgtw
        | IlOp::Culew
        | IlOp::Cultw
        | IlOp::Cugew
        | IlOp::Cugtw => OpKind::CompareWords,
        IlOp::Ceql
        | IlOp::Cnel
        | IlOp::Cslel
        | IlOp::Csltl
        | IlOp::Csgel
        | IlOp::Csgtl
        | IlOp::Culel
        | IlOp::Cultl
        | IlOp::Cugel
        | IlOp::Cugtl => OpKind::CompareLongs,
    }
}

impl OpKind {
    /// Whether it takes two operands, or one.
    pub fn takes_two(self) -> bool
        ensures { result ≡ takes_two self }
    {
        match self {
            OpKind::Plain
            | OpKind::Alloc
            | OpKind::Extend
            | OpKind::ExtendWord
            | OpKind::Load
            | OpKind::LoadLong => false,
            OpKind::Arithmetic | OpKind::Shift | OpKind::CompareWords | OpKind::CompareLongs =>
                true,
        }
    }

    /// The class at which the first operand is wanted, where the result has class `c`.
    pub fn first_class(self, c: Class) -> Class
        ensures { result ≡ first_class self c }
    {
        match self {
            OpKind::Plain | OpKind::Arithmetic | OpKind::Shift => c,
            OpKind::Extend | OpKind::ExtendWord | OpKind::CompareWords => Class::W,
            OpKind::Alloc | OpKind::Load | OpKind::LoadLong | OpKind::CompareLongs => Class::L,
        }
    }

    /// The same of the second operand, if there is one.
    pub fn second_class(self, c: Class) -> Class
        ensures { result ≡ second_class self c }
    {
        match self {
            OpKind::Plain | OpKind::Arithmetic => c,
            OpKind::Extend | OpKind::ExtendWord | OpKind::CompareWords | OpKind::Shift => Class::W,
            OpKind::Alloc | OpKind::Load | OpKind::LoadLong | OpKind::CompareLongs => Class::L,
        }
    }

    /// Whether the result may have the class `c`.
    pub fn may_give(self, c: Class) -> bool
        ensures { result ≡ may_give self c }
    {
        match (self, c) {
            (OpKind::Alloc | OpKind::ExtendWord | OpKind::LoadLong, Class::W) => false,
            _ => true,
        }
    }
}
