//! What names may be defined to be.

ghost use Rattle.std.specs.Prelude.{◌≡◌, ◌≢◌, ◌<◌, ℕ, length, Some, None, IfSome, IsSome, IsTrue};
ghost use Rattle.hare_types.specs.ByValue.{has_size, HoldsByValue};
ghost use Rattle.hare_types.specs.Trees.{Array, Named};
ghost use Rattle.hare_types.specs.Store.{tree_at, sized_of, definition_of};
ghost use Rattle.hare_layout.specs.Ids.{never};

use hare_types::{Row, Scalar, TypeId, TypeStore};

/// Whether the type is never.
fn is_never(store: &TypeStore, t: TypeId) -> bool
    requires { t < length store.now.rows }
    ensures { IsTrue result → tree_at store.now t ≡ Some never }
{
    match store.row(t) {
        Row::Scalar(k) => matches!(k, Scalar::Never),
        _ => false,
    }
}

/// Whether the type is an array of a name other than this one that is not defined.
fn is_of_undefined(store: &TypeStore, decl: u32, t: TypeId) -> bool
    requires { t < length store.now.rows }
    ensures { IsTrue result → (n other : ℕ) × (tree_at store.now t ≡ Some (Array n (Named other))) ×
        (definition_of store.now other ≡ None) × (decl ≢ other) }
{
    match store.row(t) {
        Row::Array(_, item) => match store.row(*item) {
            Row::Named(other) => {
                if *other == decl {
                    return false;
                }
                match store.definition(*other) {
                    None => true,
                    Some(_) => false,
                }
            }
            _ => false,
        },
        _ => false,
    }
}

/// Whether it is known that a name may be defined to be a type: that is `never` for a name without a size, and for one with a size a type
/// of which the extent is known, or an array of another name that is not defined.
pub fn is_definable(store: &TypeStore, decl: u32, t: TypeId) -> bool
    requires { t < length store.now.rows }
    ensures declared { IsTrue result → IsSome (sized_of store.now decl) }
    ensures fresh { IsTrue result → definition_of store.now decl ≡ None }
    ensures sized { IsTrue result → IfSome (tree_at store.now t) (λ u. has_size store.now u ≡ sized_of store.now decl) }
    ensures finite { IsTrue result → IfSome (tree_at store.now t) (λ u. ¬ HoldsByValue store.now u decl) }
{
    if store.definition(decl).is_some() {
        return false;
    }
    match store.sized(decl) {
        Some(true) => {
            if store.extent(t).is_some() {
                return true;
            }
            is_of_undefined(store, decl, t)
        }
        Some(false) => is_never(store, t),
        None => false,
    }
}
