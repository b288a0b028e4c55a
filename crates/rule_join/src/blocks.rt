//! Blocks, and the statements of cases.

ghost use Rattle.std.specs.Prelude.{◌≡◌, IfOk};
ghost use Rattle.hare_types.specs.Store.{Store};
ghost use Rattle.hare_types.specs.Later.{IsLater};
ghost use Rattle.hare_rules.specs.Control as control;
ghost use Rattle.rule_judge.specs.Defined.{IsDefined};
ghost use Rattle.rule_judge.specs.Grown.{IsGrown};
ghost use Rattle.rule_judge.specs.Turns.{context_in, IsTurn};

use hare_types::TypeStore;
use rule_judge::{Turn, is_open, void_fits};
use std::alloc::AllocError;

/// Whether the function may end at the end of the node: it is not the body of one, its end is not reached, or void may be given as the
/// result.
pub(crate) fn body_returns(s: &mut TypeStore, t: &Turn<'_>) -> Result<bool, AllocError>
    requires turn { IsTurn s.old t.now }
    requires result { IsDefined s.old t.now.case.now.inside.result }
    ensures value { IfOk result (λ b. (f : Store) → IsLater s.new f → b ≡ control.body_returns (context_in f t.now)) }
    ensures grown { IsGrown s.old s.new }
{
    let _law = s.declarations();
    let case = t.case;
    if !case.inside.body {
        return Ok(true);
    }
    if !is_open(s, t) {
        return Ok(true);
    }
    void_fits(s, case.inside.result)
}
