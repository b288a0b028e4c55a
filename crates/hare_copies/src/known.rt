//! Copies of what is known of declarations.

ghost use Rattle.std.specs.Prelude.{◌≡◌, IfOk};

use crate::constants::copy_constant;
use hare_rules::DeclType;
use hare_types::TypeIds;
use std::alloc::{AllocError, Global};

/// A copy of types, in their order.
fn copy_types(alloc: Global, types: &TypeIds) -> Result<TypeIds, AllocError>
    ensures { IfOk result (λ ts. ts ≡ types.now) }
{
    let mut copy = TypeIds::new(alloc);
    for t in types.as_slice() {
        copy.push(*t)?;
    }
    Ok(copy)
}

/// A copy of what is known of a declaration. The time is that of what it holds.
pub fn copy_known(alloc: Global, d: &DeclType) -> Result<DeclType, AllocError>
    ensures { IfOk result (λ c. c ≡ d.now) }
{
    let params = copy_types(alloc, &d.params)?;
    let value = copy_constant(alloc, &d.value)?;
    Ok(DeclType {
        decl: d.decl,
        kind: d.kind,
        ty: d.ty,
        params,
        mutable: d.mutable,
        value,
    })
}
