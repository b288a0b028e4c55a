//! The bytes of each declaration.

ghost use Rattle.std.specs.Prelude.{◌≡◌, min, map, IfOk};
ghost use Rattle.hare_limits.specs.Stops.{AreBytes};
ghost use Rattle.hare_whole.specs.Limits as limits;
ghost use Rattle.hare_bytes.specs.Bytes as spec;

use crate::declared::declared_size;
use crate::sizes::sum;
use crate::slices::slices_of;
use hare_tree::Kind;
use hare_typed::{Typed, TypedKids};
use hare_types::TypeStore;
use std::alloc::{AllocError, Global};

/// The bytes of each of these declarations, up to 2^40: of a global those of its type, with those of each array in its value that is made a
/// slice; of what is no global none. A type of which the store knows no size counts as none.
///
/// Fails for want of memory, and where a type of the trees is none of the store's, comes to a name that is not defined, or is not settled
/// by what stands beside it; in the trees of a finished program there is none of these. Takes time in proportion to the values of globals,
/// and to the members of the unions to which arrays go in them.
pub fn bytes_of_globals(
    alloc: Global,
    s: &TypeStore,
    decls: &TypedKids,
) -> Result<Vec<u64>, AllocError>
    ensures value { IfOk result (λ bs. AreBytes s.now decls.now bs.items) }
{
    let mut bytes = Vec::new(alloc);
    for i in 0..decls.len() {
        let Some(decl) = decls.get(i) else {
            return Ok(bytes);
        };
        bytes.push(bytes_of(s, decl)?)?;
    }
    Ok(bytes)
}

/// The bytes of a declaration, up to 2^40.
fn bytes_of(s: &TypeStore, decl: &Typed) -> Result<u64, AllocError>
    ensures { IfOk result (λ n. n ≡ spec.told_bytes s.now decl.now) }
{
    if !is_global(decl.kind) {
        return Ok(0);
    }
    let own = declared_size(s, decl)?;
    let sliced = slices_of(s, decl)?;
    Ok(sum(own, sliced))
}

/// Whether a declaration of this kind is a global.
fn is_global(k: Kind) -> bool
    ensures { result ≡ limits.is_global k }
{
    matches!(k, Kind::GlobalLet | Kind::GlobalConst)
}
