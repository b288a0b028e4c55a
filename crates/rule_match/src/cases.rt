//! What a `match` gives and what it asks of its kids, as the cases come together.

ghost use Rattle.std.specs.Prelude.{◌≡◌, true, IfOk, IfSome, Some};
ghost use Rattle.hare_types.specs.Store.{Store};
ghost use Rattle.hare_types.specs.Later.{IsLater};
ghost use Rattle.hare_rules.specs.Settles.{target_of};
ghost use Rattle.hare_rules.specs.Types.{type_of};
ghost use Rattle.rule_judge.specs.Asked as spec;
ghost use Rattle.rule_judge.specs.Defined.{IsDefined, IsDefinedTy};
ghost use Rattle.rule_judge.specs.Grown.{IsGrown};
ghost use Rattle.rule_judge.specs.Turns.{context_in, kind_in, IsTurn};
ghost use Rattle.rule_match.specs.Kinds.{judges};
ghost use Rattle.rule_match.specs.Needs.{IsReady};

use hare_types::{Ty, TypeId, TypeStore};
use rule_join::{asks_case, case_target, cases_type};
use rule_judge::Turn;
use std::alloc::AllocError;

/// The type of what a `match` gives.
pub(crate) fn own_type(s: &mut TypeStore, t: &Turn<'_>) -> Result<Ty, AllocError>
    requires kind { judges (kind_in t.now) ≡ true }
    requires turn { IsTurn s.old t.now }
    requires needs { IsReady s.old t.now }
    ensures value { IfOk result (λ a. (f : Store) → IsLater s.new f → type_of (context_in f t.now) ≡ Some a) }
    ensures defined { IfOk result (IsDefinedTy s.new) }
    ensures grown { IsGrown s.old s.new }
{
    let a = cases_type(s, t)?;
    Ok(a)
}

/// Whether a `match` has asked its kid number `i` for a value of a type.
pub(crate) fn asks_type(t: &Turn<'_>, i: usize) -> bool
    requires { judges (kind_in t.now) ≡ true }
    ensures { (f : Store) → result ≡ spec.asks_type (context_in f t.now) i }
{
    asks_case(t, i)
}

/// The type to which kid number `i` of a `match` goes that was asked for none; none where it stays as it is. What the node gives has the
/// type `ty`.
pub(crate) fn target(t: &Turn<'_>, ty: &Ty, i: usize) -> Option<TypeId>
    requires kind { judges (kind_in t.now) ≡ true }
    ensures value { (f : Store) → type_of (context_in f t.now) ≡ Some ty.now → result ≡ target_of (context_in f t.now) (kind_in t.now) i }
    ensures defined { (s : Store) → IsDefinedTy s ty.now → IfSome result (IsDefined s) }
{
    case_target(t, ty, i)
}
