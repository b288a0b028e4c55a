//! Which kinds may stand where.

ghost use Rattle.std.specs.Prelude.{◌≡◌, [], ◌<◌};
ghost use Rattle.hare_tree.specs.Levels as levels;
ghost use Rattle.hare_tree.specs.declared.form.Sort.TheVariants as so;

use crate::form::Sort;
use crate::kind::Kind;
use crate::level::level;
use crate::name::is_name;

/// Whether a kind is a type without `!` before it.
fn is_bare_type(k: Kind) -> bool
    ensures { result ≡ levels.is_bare_type k }
{
    match k {
        Kind::TypeScalar
        | Kind::TypePath
        | Kind::TypePointer
        | Kind::TypeNullable
        | Kind::TypeSlice
        | Kind::TypeArray
        | Kind::TypeStruct
        | Kind::TypeTuple
        | Kind::TypeUnion => true,
        _ => false,
    }
}

/// Whether a kind is a type.
fn is_type(k: Kind) -> bool
    ensures { result ≡ levels.is_type k }
{
    match k {
        Kind::TypeError => true,
        _ => is_bare_type(k),
    }
}

/// Whether a tree of this kind with this text may stand as a kid of this sort.
pub fn admits(s: Sort, k: Kind, x: &[u8]) -> bool
    ensures { result ≡ levels.admits s k x.now }
{
    match s {
        Sort::Use => matches!(k, Kind::Use | Kind::UseAlias | Kind::UseNames),
        Sort::Decl => is_declaration(k),
        Sort::ImportPath => matches!(k, Kind::ImportPath),
        Sort::Name => matches!(k, Kind::Name) && is_name(false, x),
        Sort::PathName => matches!(k, Kind::Name),
        Sort::Export => matches!(k, Kind::Export),
        Sort::Params => matches!(k, Kind::Params),
        Sort::Param => matches!(k, Kind::Param),
        Sort::StructField => matches!(k, Kind::StructField),
        Sort::Dots => matches!(k, Kind::Dots),
        Sort::ByRef => matches!(k, Kind::ByRef),
        Sort::Type => is_type(k),
        Sort::BareType => is_bare_type(k),
        Sort::Member => matches!(k, Kind::Spread) || is_type(k),
        Sort::TypePath => matches!(k, Kind::TypePath),
        Sort::Length => matches!(k, Kind::Number | Kind::Path),
        Sort::Message => matches!(k, Kind::Message),
        Sort::Level(n) => n <= level(k, x),
        Sort::Left | Sort::Right => false,
        Sort::FieldValue => matches!(k, Kind::FieldValue),
        Sort::Let => matches!(k, Kind::Let),
        Sort::Binding => matches!(k, Kind::Binding),
        Sort::Statement => matches!(k, Kind::Let | Kind::Const | Kind::Defer) || 1 <= level(k, x),
        Sort::Pattern => matches!(k, Kind::PatternLet | Kind::PatternNull) || is_type(k),
        Sort::Case => matches!(k, Kind::Case),
        Sort::SwitchCase => matches!(k, Kind::SwitchCase),
        Sort::Values => matches!(k, Kind::Values),
    }
}

/// Whether a kind is a declaration.
fn is_declaration(k: Kind) -> bool
    ensures { result ≡ levels.admits so.Decl k [] }
{
    matches!(
        k,
        Kind::Def | Kind::GlobalLet | Kind::GlobalConst | Kind::TypeDecl | Kind::Fn
    )
}

/// The sort of a kid of a node with this level.
pub fn sort_in(level: u8, s: Sort) -> Sort
    requires { level < 255 }
    ensures { result ≡ levels.sort_in level s }
{
    match s {
        Sort::Left => Sort::Level(level),
        Sort::Right => Sort::Level(level + 1),
        _ => s,
    }
}
