//! Types that are put into the store.

ghost use Rattle.std.specs.Prelude.{◌≡◌, ℕ, IfOk, IsSome, Some, length};
ghost use Rattle.hare_types.specs.ByIds.{row_at, sized_at, sized_over};
ghost use Rattle.hare_types.specs.Store.{Store, sized_of};
ghost use Rattle.hare_types.specs.Later.{IsLater};
ghost use Rattle.hare_types.specs.Rows.{IsWithin, IsReduced};
ghost use Rattle.hare_types.specs.Unions.{id_of};
ghost use Rattle.hare_types.specs.declared.row.Row.TheVariants as row;
ghost use Rattle.rule_judge.specs.Defined.{IsDefined, HoldsDefined};
ghost use Rattle.rule_types.specs.Grown.{IsGrown};
ghost use Rattle.rule_types.specs.Known.{IsKnown};

use hare_types::{Row, TypeId, TypeStore};
use std::alloc::AllocError;

/// The type with this row.
pub(crate) fn entered(s: &mut TypeStore, r: Row) -> Result<TypeId, AllocError>
    requires within { IsWithin (length s.old.rows) r }
    requires reduced { IsReduced s.old.rows r }
    ensures id { IfOk result (λ t. (f : Store) → IsLater s.new f → id_of f r ≡ Some t) }
    ensures row { IfOk result (λ t. row_at s.new t ≡ Some r) }
    ensures known { IfOk result (λ t. IsSome (sized_over (sized_of s.new) (sized_at s.new) t r) → IsKnown s.new t) }
    ensures defined { IfOk result (λ t. ((d : ℕ) → ¬ (r ≡ row.Named d)) → HoldsDefined s.old r → IsDefined s.new t) }
    ensures grown { IsGrown s.old s.new }
{
    let _law = s.declarations();
    s.intern(r)
}
