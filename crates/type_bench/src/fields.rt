//! The fields of a struct, looked up by their names.

ghost use Rattle.std.specs.Prelude.{◌≡◌, ◌≤◌, ◌<◌, ℕ, IfOk, OnOk};
ghost use Rattle.hare_types.specs.Rows.{FieldsBelow};

use hare_types::{Field, Fields, Row, Scalar, TypeId, TypeStore};
use std::alloc::{AllocError, Global};

/// A struct of so many bytes, of which each has the name of its number, in a store without names.
pub(crate) fn structure(
    alloc: Global,
    store: &mut TypeStore,
    fields: u32,
) -> Result<TypeId, AllocError> {
    let byte = store.intern(Row::Scalar(Scalar::U8))?;
    let fields = all_of(alloc, store, byte, fields)?;
    let t = store.intern(Row::Struct(fields))?;
    Ok(t)
}

/// So many fields of a type, whose names have the numbers from 0 on where the store has no names yet.
fn all_of(
    alloc: Global,
    store: &mut TypeStore,
    ty: TypeId,
    count: u32,
) -> Result<Fields, AllocError>
    ensures within { (n : ℕ) → ty < n → IfOk result (λ fs. FieldsBelow n fs) }
    ensures rows { OnOk result (store.new.rows ≡ store.old.rows) }
{
    let mut fields = Fields::new(alloc);
    for n in 0..count {
        let spelling = format!(in alloc; "f_{n}")?;
        let name = store.name(spelling.as_bytes())?;
        fields.push(Field { name, ty })?;
    }
    Ok(fields)
}

/// How many of so many names are those of the field with their number.
pub(crate) fn found(store: &TypeStore, t: TypeId, names: u32) -> u32
    ensures { result ≤ names }
{
    let mut found = 0;
    for name in 0..names {
        if store.field(t, name) == Some(name as usize) {
            found += 1;
        }
    }
    found
}
