//! The types that are written as members of unions.

ghost use Rattle.std.specs.Prelude.{◌≡◌, ◌++◌, OnOk};
ghost use Rattle.hare_typed.specs.Typed.{typed_nodes};
ghost use Rattle.hare_whole.specs.Tags as spec;
ghost use Rattle.hare_tags.specs.Lists as lists;

use crate::rows::row_of;
use hare_tree::Kind;
use hare_typed::{Typed, TypedKids};
use hare_types::{Row, Scalar, Ty, TypeId, TypeStore};
use std::alloc::AllocError;

/// Puts the types that are written as members of unions in a tree, which is itself a member or not, behind others.
#[cycle(written)]
fn push_written(
    types: &mut Vec<TypeId>,
    s: &TypeStore,
    is_member: bool,
    t: &Typed,
) -> Result<(), AllocError>
    ensures { OnOk result (types.new.items ≡ types.old.items ++ spec.written_in s.now is_member t.now) }
{
    push_if_member(types, s, is_member, t.kind, &t.ty)?;
    push_written_among(types, s, is_union(t.kind), &t.kids)
}

/// The same of some trees, which are themselves members or not.
#[cycle(written)]
pub fn push_written_among(
    types: &mut Vec<TypeId>,
    s: &TypeStore,
    are_members: bool,
    kids: &TypedKids,
) -> Result<(), AllocError>
    ensures { OnOk result (types.new.items ≡ types.old.items ++ spec.written_among s.now are_members (typed_nodes kids.now)) }
{
    for i in 0..kids.len() {
        let Some(t) = kids.get(i) else {
            return Ok(());
        };
        push_written(types, s, are_members, t)?;
    }
    Ok(())
}

/// Puts what a tree of this kind and type lists itself behind others, where it is a member.
fn push_if_member(
    types: &mut Vec<TypeId>,
    s: &TypeStore,
    is_member: bool,
    k: Kind,
    a: &Ty,
) -> Result<(), AllocError>
    ensures { OnOk result (types.new.items ≡ types.old.items ++ lists.listed_if s.now is_member k a.now) }
{
    if is_member && is_listed(k) {
        push_member(types, s, a)?;
    }
    Ok(())
}

/// Puts a type behind others, unless it is `never`.
fn push_member(types: &mut Vec<TypeId>, s: &TypeStore, a: &Ty) -> Result<(), AllocError>
    ensures { OnOk result (types.new.items ≡ types.old.items ++ lists.unless_never s.now a.now) }
{
    let Ty::Of(t) = a else {
        return Ok(());
    };
    let row = row_of(s, *t)?;
    if !is_never(row) {
        types.push(*t)?;
    }
    Ok(())
}

/// Whether a row is that of `never`.
fn is_never(row: &Row) -> bool
    ensures { result ≡ lists.is_never_row row.now }
{
    matches!(row, Row::Scalar(Scalar::Never))
}

/// Whether a member of this kind is listed itself.
fn is_listed(k: Kind) -> bool
    ensures { result ≡ spec.is_listed_kind k }
{
    !matches!(k, Kind::TypeUnion | Kind::Spread)
}

/// Whether the kids of a tree of this kind are members of a union.
fn is_union(k: Kind) -> bool
    ensures { result ≡ spec.is_union k }
{
    matches!(k, Kind::TypeUnion)
}
