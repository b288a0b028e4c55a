//! Copies of rows and of the lists in them.

ghost use Rattle.std.specs.Prelude.{◌≡◌, IfOk};

use hare_types::{Field, Fields, Row, TypeId, TypeIds};
use std::alloc::{AllocError, Global};

/// A list of these types.
pub(crate) fn type_ids(alloc: Global, types: &[TypeId]) -> Result<TypeIds, AllocError>
    ensures { IfOk result (λ ids. ids ≡ types.now) }
{
    let mut ids = TypeIds::new(alloc);
    for t in types {
        ids.push(*t)?;
    }
    Ok(ids)
}

/// A list of these fields.
fn copied_fields(alloc: Global, fields: &[Field]) -> Result<Fields, AllocError>
    ensures { IfOk result (λ fs. fs ≡ fields.now) }
{
    let mut copy = Fields::new(alloc);
    for field in fields {
        copy.push(*field)?;
    }
    Ok(copy)
}

/// A row like this one.
pub(crate) fn copied(alloc: Global, row: &Row) -> Result<Row, AllocError>
    ensures { IfOk result (λ q. q ≡ row.now) }
{
    match row {
        Row::Scalar(k) => Ok(Row::Scalar(*k)),
        Row::Pointer(t) => Ok(Row::Pointer(*t)),
        Row::Nullable(t) => Ok(Row::Nullable(*t)),
        Row::Slice(t) => Ok(Row::Slice(*t)),
        Row::Array(n, t) => Ok(Row::Array(*n, *t)),
        Row::Struct(fields) => {
            let copy = copied_fields(alloc, fields.as_slice())?;
            Ok(Row::Struct(copy))
        }
        Row::Tuple(types) => {
            let copy = type_ids(alloc, types.as_slice())?;
            Ok(Row::Tuple(copy))
        }
        Row::Union(types) => {
            let copy = type_ids(alloc, types.as_slice())?;
            Ok(Row::Union(copy))
        }
        Row::Error(t) => Ok(Row::Error(*t)),
        Row::Named(decl) => Ok(Row::Named(*decl)),
    }
}
