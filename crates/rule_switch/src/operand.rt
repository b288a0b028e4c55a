//! What a `switch` goes by, and what it gives.

ghost use Rattle.std.specs.Prelude.{◌≡◌, true, None, Some, IfOk, IfSome};
ghost use Rattle.hare_types.specs.Store.{Store};
ghost use Rattle.hare_types.specs.Later.{IsLater};
ghost use Rattle.hare_rules.specs.Constants as constants;
ghost use Rattle.hare_rules.specs.Rows.{holds};
ghost use Rattle.hare_rules.specs.Types.{type_of};
ghost use Rattle.hare_rules.specs.declared.row_id.RowId.TheVariants as row;
ghost use Rattle.rule_judge.specs.Defined.{IsDefined, IsDefinedTy};
ghost use Rattle.rule_judge.specs.Grown.{IsGrown};
ghost use Rattle.rule_judge.specs.Turns.{context_in, kind_in, IsTurn};
ghost use Rattle.rule_switch.specs.Kinds.{judges};
ghost use Rattle.rule_switch.specs.Needs.{IsReady};

use hare_types::{Ty, TypeId, TypeStore};
use rule_join::cases_type;
use rule_judge::{Turn, default_in, is_scalar, own};
use std::alloc::AllocError;

/// Whether the base of the operand's type is an integer type, `bool`, `rune` or `str`.
pub(crate) fn is_by_scalar(s: &TypeStore, t: &Turn<'_>) -> bool
    requires { IsTurn s.now t.now }
    ensures { (f : Store) → IsLater s.now f → result ≡ holds row.SwitchScalar (context_in f t.now) }
{
    is_scalar(s, &own(t, 0))
}

/// The type by which the values are judged: the default of the operand; none where it has none.
pub(crate) fn switched(s: &mut TypeStore, t: &Turn<'_>) -> Result<Option<TypeId>, AllocError>
    requires { IsTurn s.old t.now }
    ensures value { IfOk result (λ o. (f : Store) → IsLater s.new f → o ≡ constants.switched (context_in f t.now)) }
    ensures defined { IfOk result (λ o. IfSome o (IsDefined s.new)) }
    ensures grown { IsGrown s.old s.new }
{
    let _law = s.declarations();
    let operand = own(t, 0);
    default_in(s, &operand)
}

/// The type of a `switch`: what its cases join to.
pub(crate) fn own_type(s: &mut TypeStore, t: &Turn<'_>) -> Result<Ty, AllocError>
    requires kind { judges (kind_in t.now) ≡ true }
    requires turn { IsTurn s.old t.now }
    requires needs { IsReady s.old t.now }
    ensures value { IfOk result (λ a. (f : Store) → IsLater s.new f → type_of (context_in f t.now) ≡ Some a) }
    ensures defined { IfOk result (IsDefinedTy s.new) }
    ensures grown { IsGrown s.old s.new }
{
    let _law = s.declarations();
    let joined = cases_type(s, t)?;
    Ok(joined)
}
