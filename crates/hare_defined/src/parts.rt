//! The types that stand in a row.

ghost use Rattle.std.specs.Prelude.{◌≡◌, ◌↔◌, [], ◌∷◌, true, IsTrue, IfOk, OnOk, Contains, map};
ghost use Rattle.rule_judge.specs.Defined.{made_of};
ghost use Rattle.hare_defined.specs.Search.{HasOwnDefinition, HoldsAll, TakesIn};

use hare_types::{Field, Row, TypeId, TypeStore};
use indexmap::IndexSet;
use std::alloc::AllocError;

/// Puts a type behind those that have been met, unless it is among them.
pub(crate) fn meet(met: &mut IndexSet<TypeId>, t: TypeId) -> Result<(), AllocError>
    ensures takes { TakesIn met.old.keys met.new.keys (t ∷ []) }
    ensures ok { OnOk result (Contains met.new.keys t) }
{
    met.insert(t)?;
    Ok(())
}

/// The same of the types that stand in a row, and of what its name is defined to be. The answer is no where its name is not defined.
pub(crate) fn meet_parts(
    met: &mut IndexSet<TypeId>,
    s: &TypeStore,
    r: &Row,
) -> Result<bool, AllocError>
    ensures takes { TakesIn met.old.keys met.new.keys (made_of s.now r.now) }
    ensures all { OnOk result (HoldsAll met.new.keys (made_of s.now r.now)) }
    ensures named { IfOk result (λ b. IsTrue b ↔ HasOwnDefinition s.now r.now) }
{
    match r {
        Row::Scalar(_) => {}
        Row::Pointer(t) | Row::Nullable(t) | Row::Slice(t) | Row::Array(_, t) | Row::Error(t) => {
            meet(met, *t)?;
        }
        Row::Struct(fields) => meet_fields(met, fields.as_slice())?,
        Row::Tuple(types) | Row::Union(types) => meet_all(met, types.as_slice())?,
        Row::Named(decl) => match s.definition(*decl) {
            Some(t) => meet(met, t)?,
            None => return Ok(false),
        },
    }
    Ok(true)
}

/// The same of some types.
fn meet_all(met: &mut IndexSet<TypeId>, types: &[TypeId]) -> Result<(), AllocError>
    ensures takes { TakesIn met.old.keys met.new.keys types.now }
    ensures ok { OnOk result (HoldsAll met.new.keys types.now) }
{
    for t in types {
        meet(met, *t)?;
    }
    Ok(())
}

/// The same of the types of some fields.
fn meet_fields(met: &mut IndexSet<TypeId>, fields: &[Field]) -> Result<(), AllocError>
    ensures takes { TakesIn met.old.keys met.new.keys (map (λ f. f.ty) fields.now) }
    ensures ok { OnOk result (HoldsAll met.new.keys (map (λ f. f.ty) fields.now)) }
{
    for field in fields {
        meet(met, field.ty)?;
    }
    Ok(())
}
