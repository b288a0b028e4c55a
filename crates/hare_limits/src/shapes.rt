//! What declarations look like.

ghost use Rattle.std.specs.Prelude.{◌≡◌, bytes_eq, map, ◌&&◌};
ghost use Rattle.std.specs.List.{list_any};
ghost use Rattle.hare_tree.specs.Node.{head};
ghost use Rattle.hare_typed.specs.Erased.{erase};
ghost use Rattle.hare_modules.specs.Uses as uses;
ghost use Rattle.hare_modules.specs.Declarations as declarations;
ghost use Rattle.hare_whole.specs.Limits as spec;

use hare_tree::Kind;
use hare_typed::{Typed, TypedKids};

/// The kid with so many kids before it; a tree that has no such kid stands for it.
fn kid(t: &Typed, i: usize) -> &Typed
    ensures { erase result.now ≡ uses.kid (erase t.now) i }
{
    match t.kids.get(i) {
        Some(k) => k,
        None => t,
    }
}

/// The tree of a declaration's name.
pub(crate) fn name_in(t: &Typed) -> &Typed
    ensures { erase result.now ≡ declarations.name_in (erase t.now) }
{
    kid(t, 1)
}

/// Whether a tree is a function.
pub(crate) fn is_function(k: Kind) -> bool
    ensures { result ≡ spec.is_function k }
{
    matches!(k, Kind::Fn)
}

/// Whether a tree is a parameter.
fn is_param(k: Kind) -> bool
    ensures { result ≡ spec.is_param k }
{
    matches!(k, Kind::Param)
}

/// Whether a tree is a type that is written as one word.
fn is_scalar(k: Kind) -> bool
    ensures { result ≡ spec.is_scalar k }
{
    matches!(k, Kind::TypeScalar)
}

/// Whether a tree is the word `export`.
fn is_export(k: Kind) -> bool
    ensures { result ≡ declarations.is_export k }
{
    matches!(k, Kind::Export)
}

/// Whether a tree is a function with this name.
pub(crate) fn is_function_named(t: &Typed, name: &[u8]) -> bool
    ensures { result ≡ (spec.is_function (head (erase t.now)).kind && bytes_eq (uses.text_of (declarations.name_in (erase t.now)))
        name.now) }
{
    is_function(t.kind) && name_in(t).text.bytes() == name
}

/// Whether a function has parameters.
fn has_params(t: &Typed) -> bool
    ensures { result ≡ spec.has_params (erase t.now) }
{
    has_param_among(&kid(t, 2).kids)
}

/// Whether some tree is a parameter.
fn has_param_among(kids: &TypedKids) -> bool
    ensures { result ≡ list_any (λ p. spec.is_param (head p).kind) (map erase kids.now) }
{
    for i in 0..kids.len() {
        let Some(t) = kids.get(i) else {
            return false;
        };
        if is_param(t.kind) {
            return true;
        }
    }
    false
}

/// Whether the result of a function is written `void`.
fn gives_void(t: &Typed) -> bool
    ensures { result ≡ spec.gives_void (erase t.now) }
{
    let result = kid(t, 3);
    is_scalar(result.kind) && result.text.bytes() == b"void".as_slice()
}

/// Whether a function reads `export fn main() void`, but for its name.
pub(crate) fn is_entry_shaped(t: &Typed) -> bool
    ensures { result ≡ spec.is_entry_shaped (erase t.now) }
{
    is_export(kid(t, 0).kind) && !has_params(t) && gives_void(t)
}
