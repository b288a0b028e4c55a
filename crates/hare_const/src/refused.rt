//! Trees in which a node is of no constant kind.

ghost use Rattle.std.specs.Prelude.{◌≡◌, false, is_some};
ghost use Rattle.hare_types.specs.Assign.{IsIn};
ghost use Rattle.hare_typed.specs.Typed.{kids_of};
ghost use Rattle.hare_typed.specs.Constancy.{first_inconstant, first_inconstant_of};
ghost use Rattle.hare_typed.specs.ConstantForms.{own_type};

use crate::constancy::{hides_kids, is_constant, is_type};
use hare_typed::Typed;
use hare_types::TypeStore;

/// Whether a tree is no constant by its kind, or a node in it is none; `within` says whether one of its kids is so, or a node in one.
pub(crate) fn is_refused(s: &TypeStore, t: &Typed, within: bool) -> bool
    requires types { IsIn s.now (own_type t.now) }
    requires within { within ≡ is_some (first_inconstant_of s.now (λ u. false) (kids_of t.now)) }
    ensures { result ≡ is_some (first_inconstant s.now (λ u. false) t.now) }
{
    if is_type(t.kind) {
        return false;
    }
    if !is_constant(s, t) {
        return true;
    }
    within && !hides_kids(t)
}
