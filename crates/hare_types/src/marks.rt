//! Which types have a size.

ghost use Rattle.std.specs.Prelude.{◌≡◌, ℕ, Bool, None, Some, Option, false, slice_get, option_and_then};
ghost use Rattle.std.specs.Option.{unwrap_or};
ghost use Rattle.hare_types.specs.declared.row.Row.{Row as RowOf};
ghost use Rattle.hare_types.specs.ByIds.{sized_over, sized_at, has_size_at};
ghost use Rattle.hare_types.specs.Marks.{marked_in, sized_in};
ghost use Rattle.hare_types.specs.Rows.{IsWithin};
ghost use Rattle.hare_types.specs.Store.{Store};

use crate::bytes::scalar_extent;
use crate::declared::Declared;
use crate::id::TypeId;
use crate::row::Row;
use indexmap::IndexMap;

/// The type before which an error mark stands, where the type bears one itself.
fn marked(rows: &[Row], t: TypeId) -> Option<TypeId>
    ensures { result ≡ option_and_then marked_in (slice_get rows.now t) }
{
    match rows.get(t.index() as usize) {
        Some(row) => match row {
            Row::Error(inner) => Some(*inner),
            _ => None,
        },
        None => None,
    }
}

/// The type that is left once the error marks are taken off that a type itself bears; names are not followed.
fn unmarked(rows: &[Row], t: TypeId) -> TypeId
    requires { (i : ℕ) (r : RowOf) → slice_get rows.now i ≡ Some r → IsWithin i r }
    ensures sized { (s : Store) → s.rows ≡ rows.now → sized_at s result ≡ sized_at s t }
    ensures plain { option_and_then marked_in (slice_get rows.now result) ≡ None }
{
    let mut at = t;
    while let Some(inner) = marked(rows, at) {
        at = inner;
    }
    at
}

/// Whether a row has a size that bears no error mark.
fn is_sized(row: &Row, declared: &IndexMap<u32, Declared>) -> bool
    requires { marked_in row.now ≡ None }
    ensures { (ks : ℕ → Option Bool) (t : ℕ) → result ≡ unwrap_or (sized_over (sized_in declared.now.entries) ks t row.now) false }
{
    match row {
        Row::Scalar(word) => scalar_extent(*word).is_some(),
        Row::Named(decl) => match declared.get(decl) {
            Some(entry) => entry.sized,
            None => false,
        },
        _ => true,
    }
}

/// Whether the type with this id has a size.
pub(crate) fn has_size(rows: &[Row], declared: &IndexMap<u32, Declared>, t: TypeId) -> bool
    requires { (i : ℕ) (r : RowOf) → slice_get rows.now i ≡ Some r → IsWithin i r }
    ensures { (s : Store) → s.rows ≡ rows.now → s.declared ≡ declared.now.entries → result ≡ has_size_at s t }
{
    match rows.get(unmarked(rows, t).index() as usize) {
        Some(row) => is_sized(row, declared),
        None => false,
    }
}
