//! What kinds of trees are to names.

ghost use Rattle.std.specs.Prelude.{◌≡◌, ◌||◌};
ghost use Rattle.hare_names.specs.Scopes as scopes;
ghost use Rattle.hare_names.specs.Paths as paths;
ghost use Rattle.hare_names.specs.Doubled as doubled;
ghost use Rattle.hare_names.specs.Spots as spots;

use hare_tree::Kind;

/// Whether trees of a kind bind their name.
#[inline(always)]
pub fn is_binding(k: Kind) -> bool
    ensures { result ≡ scopes.is_binding k }
{
    matches!(
        k,
        Kind::Param | Kind::Let | Kind::Const | Kind::Binding | Kind::PatternLet
    )
}

/// Whether a kind is that of a function's parameters.
#[inline(always)]
pub fn is_params(k: Kind) -> bool
    ensures { result ≡ scopes.is_params k }
{
    matches!(k, Kind::Params)
}

/// Whether a kind is that of a `for` over items.
#[inline(always)]
pub fn is_for_each(k: Kind) -> bool
    ensures { result ≡ scopes.is_for_each k }
{
    matches!(k, Kind::ForEach)
}

/// Whether a kind is that of a path where a type stands.
#[inline(always)]
pub fn is_type_path(k: Kind) -> bool
    ensures { result ≡ paths.is_type_path k }
{
    matches!(k, Kind::TypePath)
}

/// Whether a kind is that of a path in an expression.
#[inline(always)]
pub fn is_value_path(k: Kind) -> bool
    ensures { result ≡ paths.is_value_path k }
{
    matches!(k, Kind::Path)
}

/// Whether the kids of trees of a kind have names that have to differ.
#[inline(always)]
pub fn has_names(k: Kind) -> bool
    ensures { result ≡ doubled.has_names k }
{
    is_params(k) || matches!(k, Kind::TypeStruct)
}

/// Whether a kind is that of a parameter or of a field of a struct type.
#[inline(always)]
pub fn is_named(k: Kind) -> bool
    ensures { result ≡ doubled.is_named k }
{
    matches!(k, Kind::Param | Kind::StructField)
}

/// Whether trees of a kind are neither paths nor bindings.
#[inline(always)]
pub fn is_idle_kind(k: Kind) -> bool
    ensures { result ≡ spots.is_idle_kind k }
{
    !matches!(
        k,
        Kind::Param
            | Kind::Let
            | Kind::Const
            | Kind::Binding
            | Kind::PatternLet
            | Kind::TypePath
            | Kind::Path
    )
}
