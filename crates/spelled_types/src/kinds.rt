//! Words and marks of spelled types.

ghost use Rattle.std.specs.Prelude.{◌≡◌, IfOk};
ghost use Rattle.hare_tree.specs.Node.{head};
ghost use Rattle.spelled_types.specs.Words.{word_of, is_type_kind};

use anyhow::{Context, Result, bail};
use hare_tree::{Kids, Kind, Tree};
use hare_types::Scalar;

/// The type that is written by this word.
pub fn scalar(word: &[u8]) -> Result<Scalar>
    ensures { IfOk result (λ k. word_of k ≡ word.now) }
{
    Ok(match word {
        b"void" => Scalar::Void,
        b"never" => Scalar::Never,
        b"opaque" => Scalar::Opaque,
        b"bool" => Scalar::Bool,
        b"rune" => Scalar::Rune,
        b"str" => Scalar::Str,
        b"i8" => Scalar::I8,
        b"i16" => Scalar::I16,
        b"i32" => Scalar::I32,
        b"i64" => Scalar::I64,
        b"u8" => Scalar::U8,
        b"u16" => Scalar::U16,
        b"u32" => Scalar::U32,
        b"u64" => Scalar::U64,
        b"int" => Scalar::Int,
        b"uint" => Scalar::Uint,
        b"size" => Scalar::Size,
        _ => bail!("no type is one word"),
    })
}

/// The word by which the type is written.
pub fn word(k: Scalar) -> &'static str
    ensures { result.now ≡ word_of k }
{
    match k {
        Scalar::Void => "void",
        Scalar::Never => "never",
        Scalar::Opaque => "opaque",
        Scalar::Bool => "bool",
        Scalar::Rune => "rune",
        Scalar::Str => "str",
        Scalar::I8 => "i8",
        Scalar::I16 => "i16",
        Scalar::I32 => "i32",
        Scalar::I64 => "i64",
        Scalar::U8 => "u8",
        Scalar::U16 => "u16",
        Scalar::U32 => "u32",
        Scalar::U64 => "u64",
        Scalar::Int => "int",
        Scalar::Uint => "uint",
        Scalar::Size => "size",
    }
}

/// Whether a part of a type is a type, or bears one as a field or a spread member does.
pub(crate) fn bears_type(kind: Kind) -> bool {
    !matches!(
        kind,
        Kind::None | Kind::Number | Kind::Path | Kind::TrailingComma
    )
}

/// What a tree's own token says.
pub fn text(tree: &Tree) -> Result<&str>
    ensures { IfOk result (λ s. s.now ≡ (head tree.now).text) }
{
    str::from_utf8(tree.text.bytes()).context("a text that is not UTF-8")
}

/// The number of items of an array type.
pub(crate) fn items(kids: &Kids) -> Result<u64> {
    let Some(number) = kids.get(0) else {
        bail!("an array without a length");
    };
    if number.kind != Kind::Number {
        bail!("an array whose length is no number");
    }
    u64::try_from(number.number)
        .ok()
        .context("a length that is too large")
}

/// Whether a tree of this kind is a written type.
pub fn is_type(kind: Kind) -> bool
    ensures { result ≡ is_type_kind kind }
{
    matches!(
        kind,
        Kind::TypeScalar
            | Kind::TypePath
            | Kind::TypePointer
            | Kind::TypeNullable
            | Kind::TypeSlice
            | Kind::TypeError
            | Kind::TypeArray
            | Kind::TypeStruct
            | Kind::TypeTuple
            | Kind::TypeUnion
    )
}
