//! What asks of a value which member of a union it is.

ghost use Rattle.std.specs.Prelude.{◌≡◌};
ghost use Rattle.hare_types.specs.Store.{Store};
ghost use Rattle.hare_types.specs.Later.{IsLater};
ghost use Rattle.hare_rules.specs.Rows.{holds};
ghost use Rattle.hare_rules.specs.declared.row_id.RowId.TheVariants as row;
ghost use Rattle.rule_judge.specs.Turns.{context_in, IsTurn};

use hare_types::{Row, Ty, TypeStore};
use rule_judge::{Turn, base_row, is_member, own, seen};

/// Whether the operand is of a union, or of a pointer that may be null.
pub(crate) fn is_tagged(s: &TypeStore, t: &Turn<'_>) -> bool
    requires { IsTurn s.now t.now }
    ensures { (f : Store) → IsLater s.now f → result ≡ holds row.TestTagged (context_in f t.now) }
{
    matches!(
        base_row(s, &seen(t, 0)),
        Some(Row::Union(_) | Row::Nullable(_))
    )
}

/// Whether the type that is asked for is a member of the operand's.
pub(crate) fn has_member(s: &TypeStore, t: &Turn<'_>) -> bool
    requires { IsTurn s.now t.now }
    ensures { (f : Store) → IsLater s.now f → result ≡ holds row.TestMember (context_in f t.now) }
{
    let operand = seen(t, 0);
    match own(t, 1) {
        Ty::Of(u) => is_member(s, &operand, u),
        Ty::Iconst(_) | Ty::Null | Ty::Empty => false,
    }
}
