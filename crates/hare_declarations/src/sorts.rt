//! What declarations are, by their kinds.

ghost use Rattle.std.specs.Prelude.{◌≡◌, not};
ghost use Rattle.hare_tree.specs.Shape as shape;
ghost use Rattle.hare_tree.specs.Node.{head};
ghost use Rattle.hare_modules.specs.Declarations.{is_type_decl};
ghost use Rattle.hare_modules.specs.Uses as uses;
ghost use Rattle.hare_depends.specs.Sorts.{is_global, sort_of, sort_of_global};
ghost use Rattle.rule_ctl.specs.Declaring.{declares};

use hare_tree::{Kind, Tree};

/// Whether a declaration is a def or a global.
pub(crate) fn is_binding(kind: Kind) -> bool
    ensures { result ≡ declares kind }
{
    matches!(kind, Kind::Def | Kind::GlobalLet | Kind::GlobalConst)
}

/// Whether a declaration is one of a type.
pub(crate) fn is_type(decl: &Tree) -> bool
    ensures { result ≡ is_type_decl (head decl.now).kind }
{
    matches!(decl.kind, Kind::TypeDecl)
}

/// The kid with so many kids before it; a tree that has no such kid stands for it.
fn kid(t: &Tree, i: usize) -> &Tree
    ensures { result.now ≡ uses.kid t.now i }
{
    match t.kids.get(i) {
        Some(k) => k,
        None => t,
    }
}

/// Whether a tree stands in the place of what is not there.
fn is_none(kind: Kind) -> bool
    ensures { result ≡ shape.is_none kind }
{
    matches!(kind, Kind::None)
}

/// Whether a global is one whose type is written, where it is left out or not.
fn is_typed_where(is_left_out: bool) -> bool
    ensures { result ≡ is_global (sort_of_global (not is_left_out)) }
{
    if is_left_out { false } else { true }
}

/// Whether a declaration is a global whose type is written.
pub(crate) fn is_typed_global(decl: &Tree) -> bool
    ensures { result ≡ is_global (sort_of decl.now) }
{
    match decl.kind {
        Kind::GlobalLet | Kind::GlobalConst => is_typed_where(is_none(kid(decl, 2).kind)),
        _ => false,
    }
}
