//! Numbers, as they are written.

ghost use Rattle.std.specs.Prelude.{◌≡◌, ◌<◌, ◌^◌, pos, IfOk, Some};
ghost use Rattle.hare_types.specs.Store.{Store};
ghost use Rattle.hare_types.specs.Later.{IsLater};
ghost use Rattle.hare_rules.specs.Operators as spec;
ghost use Rattle.rule_judge.specs.Defined.{IsDefinedTy};
ghost use Rattle.rule_judge.specs.Grown.{IsGrown};

use hare_tree::Suffix;
use hare_types::{Scalar, Ty, TypeStore};
use rule_judge::word;
use std::alloc::AllocError;

/// The type that a suffix names; none where there is no suffix.
fn suffix_word(suffix: Suffix) -> Option<Scalar>
    ensures { result ≡ spec.suffix_word suffix }
{
    match suffix {
        Suffix::None => None,
        Suffix::I8 => Some(Scalar::I8),
        Suffix::I16 => Some(Scalar::I16),
        Suffix::I32 => Some(Scalar::I32),
        Suffix::I64 => Some(Scalar::I64),
        Suffix::U8 => Some(Scalar::U8),
        Suffix::U16 => Some(Scalar::U16),
        Suffix::U32 => Some(Scalar::U32),
        Suffix::U64 => Some(Scalar::U64),
        Suffix::I => Some(Scalar::Int),
        Suffix::U => Some(Scalar::Uint),
        Suffix::Z => Some(Scalar::Size),
    }
}

/// Whether the type that the suffix names, where there is one, holds the number.
pub(crate) fn number_fits(suffix: Suffix, number: u128) -> bool
    ensures { result ≡ spec.word_holds (spec.suffix_word suffix) number }
{
    match suffix_word(suffix) {
        Some(k) => number <= u64::MAX as u128 && k.holds(number as i128),
        None => true,
    }
}

/// The type that the suffix names; without one that of a whole number without a suffix.
pub(crate) fn number_type(s: &mut TypeStore, suffix: Suffix, number: u128) -> Result<Ty, AllocError>
    requires { number < 2 ^ 127 }
    ensures value { IfOk result (λ a. (f : Store) → IsLater s.new f → spec.number_type_by f (spec.suffix_word suffix) number ≡ Some a) }
    ensures defined { IfOk result (IsDefinedTy s.new) }
    ensures grown { IsGrown s.old s.new }
{
    let _law = s.declarations();
    match suffix_word(suffix) {
        Some(k) => Ok(Ty::Of(word(s, k)?)),
        None => Ok(Ty::Iconst(number as i128)),
    }
}
