//! What leaves a function.

ghost use Rattle.std.specs.Prelude.{◌≡◌, IfOk};
ghost use Rattle.hare_types.specs.Store.{Store};
ghost use Rattle.hare_types.specs.Later.{IsLater};
ghost use Rattle.hare_rules.specs.Rows.{holds};
ghost use Rattle.hare_rules.specs.declared.row_id.RowId.TheVariants as row;
ghost use Rattle.rule_judge.specs.Defined.{IsDefined};
ghost use Rattle.rule_judge.specs.Grown.{IsGrown};
ghost use Rattle.rule_judge.specs.Turns.{context_in};

use hare_types::TypeStore;
use rule_judge::{Turn, is_there, void_fits};
use std::alloc::AllocError;

/// Whether no deferred expression is open.
pub(crate) fn is_undeferred(t: &Turn<'_>) -> bool
    ensures tried { (f : Store) → result ≡ holds row.TryUndeferred (context_in f t.now) }
    ensures returned { (f : Store) → result ≡ holds row.ReturnUndeferred (context_in f t.now) }
{
    let case = t.case;
    !case.inside.deferred
}

/// Whether there is a value, or void may be given as the result of the function.
pub(crate) fn has_result(s: &mut TypeStore, t: &Turn<'_>) -> Result<bool, AllocError>
    requires { IsDefined s.old t.now.case.now.inside.result }
    ensures value { IfOk result (λ b. (f : Store) → IsLater s.new f → b ≡ holds row.ReturnNoValue (context_in f t.now)) }
    ensures grown { IsGrown s.old s.new }
{
    let _law = s.declarations();
    if is_there(t.kids, 0) {
        return Ok(true);
    }
    let case = t.case;
    void_fits(s, case.inside.result)
}
