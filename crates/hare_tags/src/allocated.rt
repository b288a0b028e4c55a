//! The types of the unions that allocations give.

ghost use Rattle.std.specs.Prelude.{◌≡◌, ◌++◌, ◌==◌, Some, IfOk, OnOk, filter, not};
ghost use Rattle.hare_typed.specs.Typed.{typed_nodes};
ghost use Rattle.hare_whole.specs.Tags as tags;
ghost use Rattle.hare_tags.specs.Lists as spec;

use crate::rows::{members_in, row_of};
use hare_tree::Kind;
use hare_typed::{Typed, TypedKids};
use hare_types::{Row, Ty, TypeId, TypeStore};
use std::alloc::AllocError;

/// The number of the declaration of `rt::nomem`.
const NOMEM: u32 = 4_294_967_295;

/// Puts the types of the unions that the allocations of a function's body give behind others, in check order; of other declarations none.
pub fn push_body(types: &mut Vec<TypeId>, s: &TypeStore, decl: &Typed) -> Result<(), AllocError>
    ensures { OnOk result (types.new.items ≡ types.old.items ++ spec.body_types s.now decl.now) }
{
    if !is_function(decl.kind) {
        return Ok(());
    }
    let count = decl.kids.len();
    if count == 0 {
        return Ok(());
    }
    match decl.kids.get(count - 1) {
        Some(body) => push_allocated(types, s, body),
        None => Ok(()),
    }
}

/// Whether a declaration of this kind is a function.
fn is_function(k: Kind) -> bool
    ensures { result ≡ spec.is_function k }
{
    matches!(k, Kind::Fn)
}

/// Puts the types of the unions that the allocations in a tree give behind others, in check order.
#[cycle(allocated)]
fn push_allocated(types: &mut Vec<TypeId>, s: &TypeStore, t: &Typed) -> Result<(), AllocError>
    ensures { OnOk result (types.new.items ≡ types.old.items ++ tags.allocated_in s.now t.now) }
{
    push_allocated_among(types, s, &t.kids)?;
    push_own(types, s, t.kind, &t.ty)
}

/// The same of some trees.
#[cycle(allocated)]
fn push_allocated_among(
    types: &mut Vec<TypeId>,
    s: &TypeStore,
    kids: &TypedKids,
) -> Result<(), AllocError>
    ensures { OnOk result (types.new.items ≡ types.old.items ++ spec.allocated_among s.now (typed_nodes kids.now)) }
{
    for i in 0..kids.len() {
        let Some(t) = kids.get(i) else {
            return Ok(());
        };
        push_allocated(types, s, t)?;
    }
    Ok(())
}

/// Puts the members of the union that a node of this kind and type gives behind others, if it is an allocation.
fn push_own(types: &mut Vec<TypeId>, s: &TypeStore, k: Kind, a: &Ty) -> Result<(), AllocError>
    ensures { OnOk result (types.new.items ≡ types.old.items ++ tags.allocated_by s.now k a.now) }
{
    match k {
        Kind::Alloc | Kind::Append => push_union(types, s, a),
        _ => Ok(()),
    }
}

/// Puts the members of the union that is the base of a type behind others, `rt::nomem` last. Fails where it is none of them.
fn push_union(types: &mut Vec<TypeId>, s: &TypeStore, a: &Ty) -> Result<(), AllocError>
    ensures { OnOk result (types.new.items ≡ types.old.items ++ tags.allocation_listed s.now a.now) }
{
    let Some(members) = members_in(s, a) else {
        return Err(AllocError);
    };
    let refusal = nomem_among(s, members)?;
    push_except(types, members, refusal)?;
    types.push(refusal)?;
    Ok(())
}

/// Puts those of some types that are not this one behind others.
fn push_except(types: &mut Vec<TypeId>, members: &[TypeId], t: TypeId) -> Result<(), AllocError>
    ensures { OnOk result (types.new.items ≡ types.old.items ++ filter (λ u. not (u == t)) members.now) }
{
    for member in members {
        if *member != t {
            types.push(*member)?;
        }
    }
    Ok(())
}

/// That of some types which is `rt::nomem`. Fails where none is.
fn nomem_among(s: &TypeStore, members: &[TypeId]) -> Result<TypeId, AllocError>
    ensures { IfOk result (λ t. tags.nomem_id s.now ≡ Some t) }
{
    let _law = s.declarations();
    for member in members {
        if is_nomem(row_of(s, *member)?) {
            return Ok(*member);
        }
    }
    Err(AllocError)
}

/// Whether a row is that of `rt::nomem`.
fn is_nomem(row: &Row) -> bool
    ensures { result ≡ spec.is_nomem_row row.now }
{
    matches!(row, Row::Named(NOMEM))
}
