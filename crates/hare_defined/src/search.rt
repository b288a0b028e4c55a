//! The types that a type mentions.

ghost use Rattle.std.specs.Prelude.{◌≡◌, ◌↔◌, ◌<◌, true, IsTrue, length, IfOk, Contains};
ghost use Rattle.hare_types.specs.Numbering.{Continues};
ghost use Rattle.rule_judge.specs.Defined.{IsDefined};
ghost use Rattle.hare_defined.specs.Known.{AreDefined};

use crate::parts::{meet, meet_parts};
use hare_types::{TypeId, TypeStore};
use indexmap::IndexSet;
use std::alloc::AllocError;

/// Puts a type and all that it mentions behind those that are known, each once; they are looked at in the order in which they are met. The
/// answer is no as soon as a name is met that is not defined.
pub(crate) fn meet_mentioned(
    known: &mut IndexSet<TypeId>,
    s: &TypeStore,
    t: TypeId,
) -> Result<bool, AllocError>
    requires within { t < length s.now.rows }
    requires known { AreDefined s.now known.old.keys }
    ensures value { IfOk result (λ b. IsTrue b ↔ IsDefined s.now t) }
    ensures known { result ≡ Ok true → AreDefined s.now known.new.keys }
    ensures found { result ≡ Ok true → Contains known.new.keys t }
    ensures grows { Continues known.old.keys known.new.keys }
{
    let mut next = known.len();
    meet(known, t)?;
    while let Some(u) = known.as_slice().get(next) {
        let row = s.row(*u);
        if !meet_parts(known, s, row)? {
            return Ok(false);
        }
        next += 1;
    }
    Ok(true)
}
