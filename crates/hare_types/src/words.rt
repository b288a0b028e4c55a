//! What is asked of the types that are written by one word.

ghost use Rattle.std.specs.Prelude.{◌≡◌, ◌&&◌, int_le};
ghost use Rattle.hare_types.specs.Assign.{signed, bits, wider, holds, default_word};

use crate::row::Scalar;

impl Scalar {
    /// Whether an integer type has negative values, `None` of what is no integer type.
    pub fn is_signed(self) -> Option<bool>
        ensures { result ≡ signed self }
    {
        match self {
            Scalar::I8 | Scalar::I16 | Scalar::I32 | Scalar::I64 | Scalar::Int => Some(true),
            Scalar::U8 | Scalar::U16 | Scalar::U32 | Scalar::U64 | Scalar::Uint | Scalar::Size => {
                Some(false)
            }
            _ => None,
        }
    }

    /// The bits of an integer type, 0 of what is no integer type.
    pub fn bits(self) -> u32
        ensures { result ≡ bits self }
    {
        match self {
            Scalar::I8 | Scalar::U8 => 8,
            Scalar::I16 | Scalar::U16 => 16,
            Scalar::I32 | Scalar::U32 | Scalar::Int | Scalar::Uint => 32,
            Scalar::I64 | Scalar::U64 | Scalar::Size => 64,
            _ => 0,
        }
    }

    /// Whether both are integer types of one signedness, and the other is strictly wider.
    pub fn widens_to(self, other: Scalar) -> bool
        ensures { result ≡ wider self other }
    {
        match (self.is_signed(), other.is_signed()) {
            (Some(a), Some(b)) => a == b && self.bits() < other.bits(),
            _ => false,
        }
    }

    /// Whether the type is an integer type that holds the number.
    pub fn holds(self, v: i128) -> bool
        ensures { result ≡ holds self v }
    {
        match self {
            Scalar::I8 => is_between(v, i8::MIN as i128, i8::MAX as i128),
            Scalar::I16 => is_between(v, i16::MIN as i128, i16::MAX as i128),
            Scalar::I32 | Scalar::Int => is_between(v, i32::MIN as i128, i32::MAX as i128),
            Scalar::I64 => is_between(v, i64::MIN as i128, i64::MAX as i128),
            Scalar::U8 => is_between(v, 0, u8::MAX as i128),
            Scalar::U16 => is_between(v, 0, u16::MAX as i128),
            Scalar::U32 | Scalar::Uint => is_between(v, 0, u32::MAX as i128),
            Scalar::U64 | Scalar::Size => is_between(v, 0, u64::MAX as i128),
            _ => false,
        }
    }

    /// The default type of a whole number without a suffix: `int` where it fits, else `i64` where it fits, else none.
    pub fn default_of(v: i128) -> Option<Scalar>
        ensures { result ≡ default_word v }
    {
        if Scalar::Int.holds(v) {
            Some(Scalar::Int)
        } else if Scalar::I64.holds(v) {
            Some(Scalar::I64)
        } else {
            None
        }
    }
}

/// Whether a number lies between two others, or is one of them.
fn is_between(v: i128, least: i128, greatest: i128) -> bool
    ensures { result ≡ (int_le least v && int_le v greatest) }
{
    least <= v && v <= greatest
}
