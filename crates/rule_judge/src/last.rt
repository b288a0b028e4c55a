//! The two rows that all kinds share.

ghost use Rattle.std.specs.Prelude.{◌≡◌};
ghost use Rattle.hare_types.specs.Store.{Store};
ghost use Rattle.hare_types.specs.Later.{IsLater};
ghost use Rattle.rule_judge.specs.Asked as spec;
ghost use Rattle.rule_judge.specs.Defined.{IsDefinedTy, IsDefinedHint};

use crate::errors::holds_error;
use crate::sites::coerced;
use hare_rules::{Hint, RowId};
use hare_types::{Ty, TypeStore};

/// Which of the two rows that all kinds share a node of this type fails first under the hint; none where it meets both.
pub(crate) fn last_failing(s: &TypeStore, hint: &Hint, a: &Ty) -> Option<RowId>
    requires value { IsDefinedTy s.now a.now }
    requires hint { IsDefinedHint s.now hint.now }
    ensures { (f : Store) → IsLater s.now f → result ≡ spec.last_failing f hint.now a.now }
{
    match hint {
        Hint::Of(t) => {
            if coerced(s, a, *t).is_some() {
                None
            } else {
                Some(RowId::Site)
            }
        }
        Hint::Drop => {
            if holds_error(s, a) {
                Some(RowId::Kept)
            } else {
                None
            }
        }
        Hint::None => None,
    }
}
