//! What may stand as the length of an array.

ghost use Rattle.std.specs.Prelude.{◌≡◌, Some, None, MatchResult};
ghost use Rattle.hare_typed.specs.Constants.{own_kind};
ghost use Rattle.hare_typed.specs.Given.{base_row as row_of_base};
ghost use Rattle.hare_const.specs.Lengths as spec;

use crate::number::number_in;
use crate::shape::base_row;
use hare_tree::{Fault, Kind, Suffix};
use hare_typed::Typed;
use hare_types::{Row, Ty, TypeStore};

/// The greatest length of an array.
const MOST: u128 = 67_108_864;

/// The number of the fault at what is no length.
const BAD_LENGTH: u8 = 24;

/// Whether the base of a type is an integer type.
fn is_integer(s: &TypeStore, t: Ty) -> bool
    ensures { result ≡ spec.is_integer_row (row_of_base s.now t) }
{
    let Ty::Of(t) = t else {
        return false;
    };
    matches!(base_row(s, t), Some(Row::Scalar(k)) if k.is_signed().is_some())
}

/// The constant of a path to a def of integer base, where it is not negative.
fn constant_length(s: &TypeStore, t: &Typed) -> Option<u128>
    ensures { result ≡ spec.constant_length s.now t.now }
{
    if !is_integer(s, t.ty) {
        return None;
    }
    let v = number_in(s, t.ty, &t.value)?;
    if v < 0 { None } else { Some(v as u128) }
}

/// The number that a node is where a length stands, however great.
fn number_at(s: &TypeStore, t: &Typed) -> Option<u128>
    ensures { result ≡ spec.length_by s.now (own_kind t.now) t.now }
{
    match t.kind {
        Kind::Number => match t.suffix {
            Suffix::None | Suffix::Z => Some(t.number),
            _ => None,
        },
        Kind::Path => constant_length(s, t),
        _ => None,
    }
}

/// The length of an array that a node is: a literal without a suffix or with that of size, or the name of a def of integer base, with a
/// value from 0 to 67,108,864. Any other node is E24, at its place. Takes no memory.
pub fn array_length(s: &TypeStore, t: &Typed) -> Result<u64, Fault>
    ensures { MatchResult result (λ n. spec.length_of s.now t.now ≡ Some n)
        (λ f. (spec.length_of s.now t.now ≡ None) × (f ≡ spec.bad_length t.now)) }
{
    match number_at(s, t) {
        Some(n) if n <= MOST => Ok(n as u64),
        _ => Err(Fault {
            number: BAD_LENGTH,
            place: t.place,
        }),
    }
}
