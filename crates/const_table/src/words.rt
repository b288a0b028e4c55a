//! Words of types.

use hare_types::Row;

/// What a type is, once names and error marks are followed.
pub(crate) fn word(row: Option<&Row>) -> &'static str {
    match row {
        Some(Row::Scalar(k)) => spelled_types::word(*k),
        Some(Row::Pointer(_) | Row::Nullable(_)) => "pointer",
        Some(Row::Slice(_)) => "slice",
        Some(Row::Array(_, _)) => "array",
        Some(Row::Struct(_)) => "struct",
        Some(Row::Tuple(_)) => "tuple",
        Some(Row::Union(_)) => "union",
        Some(Row::Error(_) | Row::Named(_)) | None => "name",
    }
}
