//! Kinds of operations, by their operands and their result.

ghost use Rattle.std.specs.Prelude.{◌≡◌};
ghost use Rattle.flat_code.specs.Kinds.{op_kind, takes_two, first_class, second_class, may_give};

use crate::op::Op;
use hx_base::Class;

/// What an operation takes and gives.
#[derive(Clone, Copy, Debug, PartialEq, Eq)]
pub enum OpKind {
    /// Takes one operand at the class of the result.
    Plain,
    /// Takes a word, of which it extends a part.
    Extend,
    /// Takes a word and gives a long.
    ExtendWord,
    /// Takes two operands at the class of the result.
    Arithmetic,
    /// Takes an operand at the class of the result, and a word.
    Shift,
    /// Takes two words.
    CompareWords,
    /// Takes two longs.
    CompareLongs,
}

impl Op {
    /// The kind of the operation.
    pub fn kind(self) -> OpKind
        ensures { result ≡ op_kind self }
    {
        match self {
            Op::Neg | Op::Copy => OpKind::Plain,
            Op::Extsb | Op::Extub | Op::Extsh | Op::Extuh => OpKind::Extend,
            Op::Extsw | Op::Extuw => OpKind::ExtendWord,
            Op::Add
            | Op::Sub
            | Op::Mul
            | Op::Div
            | Op::Rem
            | Op::Udiv
            | Op::Urem
            | Op::And
            | Op::Or
            | Op::Xor => OpKind::Arithmetic,
            Op::Shl | Op::Shr | Op::Sar => OpKind::Shift,
            Op::Ceqw
            | Op::Cnew
            | Op::Cslew
            | Op::Csltw
            | Op::Csgew
            | Op::Csgtw
            | Op::Culew
            | Op::Cultw
            | Op::Cugew
            | Op::Cugtw => OpKind::CompareWords,
            Op::Ceql
            | Op::Cnel
            | Op::Cslel
            | Op::Csltl
            | Op::Csgel
            | Op::Csgtl
            | Op::Culel
            | Op::Cultl
            | Op::Cugel
            | Op::Cugtl => OpKind::CompareLongs,
        }
    }
}

impl OpKind {
    /// Whether it takes two operands, or one.
    pub fn takes_two(self) -> bool
        ensures { result ≡ takes_two self }
    {
        match self {
            OpKind::Plain | OpKind::Extend | OpKind::ExtendWord => false,
            OpKind::Arithmetic | OpKind::Shift | OpKind::CompareWords | OpKind::CompareLongs =>
                true,
        }
    }

    /// The class at which the first operand is wanted, where the result has class `c`.
    pub fn first_class(self, c: Class) -> Class
        ensures { result ≡ first_class self c }
    {
        match self {
            OpKind::Plain | OpKind::Arithmetic | OpKind::Shift => c,
            OpKind::Extend | OpKind::ExtendWord | OpKind::CompareWords => Class::W,
            OpKind::CompareLongs => Class::L,
        }
    }

    /// The same of the second operand, if there is one.
    pub fn second_class(self, c: Class) -> Class
        ensures { result ≡ second_class self c }
    {
        match self {
            OpKind::Plain | OpKind::Arithmetic => c,
            OpKind::Extend | OpKind::ExtendWord | OpKind::CompareWords | OpKind::Shift => Class::W,
            OpKind::CompareLongs => Class::L,
        }
    }

    /// Whether the result may have the class `c`.
    pub fn may_give(self, c: Class) -> bool
        ensures { result ≡ may_give self c }
    {
        match (self, c) {
            (OpKind::ExtendWord, Class::W) => false,
            _ => true,
        }
    }
}
