//! Kinds of trees that stand in written types.

ghost use Rattle.std.specs.Prelude.{◌≡◌};
ghost use Rattle.hare_tree.specs.Levels as levels;
ghost use Rattle.hare_find.specs.Lengths as lengths;
ghost use Rattle.hare_written.specs.Nodes as nodes;

use hare_tree::Kind;

/// Whether a tree of this kind is a written type.
pub(crate) fn is_type(k: Kind) -> bool
    ensures { result ≡ levels.is_type k }
{
    matches!(
        k,
        Kind::TypeScalar
            | Kind::TypePath
            | Kind::TypePointer
            | Kind::TypeNullable
            | Kind::TypeSlice
            | Kind::TypeArray
            | Kind::TypeStruct
            | Kind::TypeTuple
            | Kind::TypeUnion
            | Kind::TypeError
    )
}

/// Whether a tree of this kind can be the length of an array.
pub(crate) fn is_length(k: Kind) -> bool
    ensures { result ≡ lengths.is_length k }
{
    matches!(k, Kind::Number | Kind::Path)
}

/// Whether a tree of this kind stands round written types, or in the place of one.
pub(crate) fn is_around(k: Kind) -> bool
    ensures { result ≡ nodes.is_around k }
{
    matches!(
        k,
        Kind::StructField | Kind::Spread | Kind::None | Kind::TrailingComma
    )
}

/// Whether a tree of this kind can stand in a written type.
pub(crate) fn is_written(k: Kind) -> bool
    ensures { result ≡ nodes.is_written k }
{
    is_type(k) || is_length(k) || is_around(k)
}
