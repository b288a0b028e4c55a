//! The fields of struct literals.

ghost use Rattle.std.specs.Prelude.{◌≡◌, IfOk};
ghost use Rattle.hare_types.specs.Store.{Store};
ghost use Rattle.hare_types.specs.Later.{IsLater};
ghost use Rattle.hare_rules.specs.Rows.{holds};
ghost use Rattle.hare_rules.specs.declared.row_id.RowId.TheVariants as row;
ghost use Rattle.rule_judge.specs.Turns.{context_in, IsTurn};

use crate::fill::is_filled;
use hare_types::{Row, TypeStore};
use rule_judge::{Turn, base_row, own};
use std::alloc::{AllocError, Global};

/// Whether the values of a struct literal name each field of its type once, and nothing else.
pub(crate) fn names_fields(alloc: Global, s: &TypeStore, t: &Turn<'_>) -> Result<bool, AllocError>
    requires { IsTurn s.now t.now }
    ensures { IfOk result (λ b. (f : Store) → IsLater s.now f → b ≡ holds row.StructLitFields (context_in f t.now)) }
{
    let _law = s.declarations();
    let path = own(t, 0);
    match base_row(s, &path) {
        Some(Row::Struct(fields)) => {
            let filled = is_filled(alloc, s, fields.as_slice(), t.kids)?;
            Ok(filled)
        }
        _ => Ok(false),
    }
}
