//! Whether constants cover a type.

ghost use Rattle.std.specs.Prelude.{◌↔◌, ◌≡◌, ◌≤◌, ◌^◌, pos, neg_ℤ, ◌≤ℤ◌, ◌<ℤ◌, IsTrue, Some, None, IfSome, MatchOption};
ghost use Rattle.hare_types.specs.declared.coercion.Ty.TheVariants as ty;
ghost use Rattle.hare_typed.specs.Cover.{integers, range_of_word, range_of};
ghost use Rattle.hare_typed.specs.Given.{base_row as row_of_base};
ghost use Rattle.hare_const.specs.Covering.{Ascend, Cover};

use crate::number::number_of;
use crate::shape::base_row;
use hare_typed::Consts;
use hare_types::{Row, Scalar, TypeId, TypeStore};

/// The least and the greatest value of a type.
#[derive(Clone, Copy, Debug, PartialEq, Eq)]
pub struct Limits {
    /// The least value.
    pub least: i128,
    /// The greatest value.
    pub greatest: i128,
}

/// The bits of a rune.
const RUNE_BITS: u32 = 32;

/// The values of an integer type of so many bits, from 1 to 64.
fn integers(bits: u32, signed: bool) -> Limits
    requires some { 1 ≤ bits }
    requires few { bits ≤ 64 }
    ensures low { neg_ℤ (pos (2 ^ 63)) ≤ℤ result.least }
    ensures some { result.least ≤ℤ result.greatest }
    ensures high { result.greatest <ℤ pos (2 ^ 64) }
    ensures value { integers bits (Some signed) ≡ Some (record { least = result.least; greatest = result.greatest }) }
{
    if signed {
        let end = 1i128 << (bits - 1);
        Limits {
            least: -end,
            greatest: end - 1,
        }
    } else {
        let end = 1i128 << bits;
        Limits {
            least: 0,
            greatest: end - 1,
        }
    }
}

/// The values of a type that is one word, where it has a least and a greatest.
fn limits_of(k: Scalar) -> Option<Limits>
    ensures low { IfSome result (λ r. neg_ℤ (pos (2 ^ 63)) ≤ℤ r.least) }
    ensures some { IfSome result (λ r. r.least ≤ℤ r.greatest) }
    ensures high { IfSome result (λ r. r.greatest <ℤ pos (2 ^ 64)) }
    ensures value { MatchOption result (range_of_word k ≡ None)
        (λ r. range_of_word k ≡ Some (record { least = r.least; greatest = r.greatest })) }
{
    match k {
        Scalar::Bool => Some(Limits {
            least: 0,
            greatest: 1,
        }),
        Scalar::Rune => Some(integers(RUNE_BITS, false)),
        _ => match k.is_signed() {
            Some(signed) => Some(integers(k.bits(), signed)),
            None => None,
        },
    }
}

/// The least and the greatest value of a type: of an integer type or rune, and 0 and 1 of bool. None where its base has no such values.
pub fn limits_at(s: &TypeStore, t: TypeId) -> Option<Limits>
    ensures low { IfSome result (λ r. neg_ℤ (pos (2 ^ 63)) ≤ℤ r.least) }
    ensures some { IfSome result (λ r. r.least ≤ℤ r.greatest) }
    ensures high { IfSome result (λ r. r.greatest <ℤ pos (2 ^ 64)) }
    ensures value { MatchOption result (range_of (row_of_base s.now (ty.Of t)) ≡ None)
        (λ r. range_of (row_of_base s.now (ty.Of t)) ≡ Some (record { least = r.least; greatest = r.greatest })) }
{
    match base_row(s, t) {
        Some(Row::Scalar(k)) => limits_of(*k),
        _ => None,
    }
}

/// Whether constants of a type are all its values: of an integer type or rune, from its least to its greatest, and of bool both. They
/// ascend, and one may stand there more than once. Texts have no end, so that no constants cover `str`. Takes no memory, and one pass.
pub fn covers(s: &TypeStore, t: TypeId, cases: &Consts) -> bool
    requires { Ascend s.now t cases.now }
    ensures { IsTrue result ↔ Cover s.now t cases.now }
{
    let Some(limits) = limits_at(s, t) else {
        return false;
    };
    let mut open = limits.least;
    for case in cases.as_slice() {
        if number_of(s, t, case) == Some(open) {
            open += 1;
        }
    }
    open > limits.greatest
}
