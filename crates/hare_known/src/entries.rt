//! What is known of a type, of a function and of a global.

ghost use Rattle.std.specs.Prelude.{◌≡◌, [], map, IfOk};
ghost use Rattle.hare_types.specs.Sound.{IsStore};
ghost use Rattle.hare_types.specs.Store.{Store};
ghost use Rattle.hare_types.specs.Later.{IsLater};
ghost use Rattle.hare_typed.specs.declared.constant.Const.TheVariants as constant;
ghost use Rattle.hare_typed.specs.Order.{tree_from_front, backwards, missing};
ghost use Rattle.hare_rules.specs.Aggregates.{but_last};
ghost use Rattle.hare_walk.specs.Grown.{IsGrown};
ghost use Rattle.hare_whole.specs.Parts as parts;

use crate::parts::written_at;
use hare_rules::DeclType;
use hare_tree::Kind;
use hare_typed::{Const, TypedKids};
use hare_types::{Row, TypeId, TypeIds, TypeStore};
use rule_judge::is_there;
use std::alloc::{AllocError, Global};

/// What is known of a type: its name. A type that is not declared is answered as want of memory.
pub(crate) fn type_known(alloc: Global, s: &mut TypeStore, own: u32) -> Result<DeclType, AllocError>
    ensures value { IfOk result (λ d. (l : Store) → IsLater s.new l → d ≡ parts.type_known l own) }
    ensures grown { IsGrown s.old s.new }
    ensures sound { IsStore s.new }
{
    let _law = s.declarations();
    if s.sized(own).is_none() {
        return Err(AllocError);
    }
    let ty = s.intern(Row::Named(own))?;
    Ok(DeclType {
        decl: own,
        kind: Kind::TypeDecl,
        ty,
        params: TypeIds::new(alloc),
        mutable: false,
        value: Const::Absent,
    })
}

/// The types of the parameters of a function: all that are written but the last.
fn parameters_of(alloc: Global, types: &TypedKids) -> Result<TypeIds, AllocError>
    ensures { IfOk result (λ us. us ≡ map parts.written_id (but_last types.now)) }
{
    let mut params = TypeIds::new(alloc);
    for i in 0..types.len().saturating_sub(1) {
        let param = written_at(types, i)?;
        params.push(param)?;
    }
    Ok(params)
}

/// What is known of a function: the types of its parameters, and of its result, which stands behind them.
pub(crate) fn function_known(
    alloc: Global,
    own: u32,
    types: &TypedKids,
) -> Result<DeclType, AllocError>
    ensures { IfOk result (λ d. d ≡ parts.function_known own (but_last types.now) (tree_from_front 0 (backwards types.now))) }
{
    let ty = written_at(types, types.len().saturating_sub(1))?;
    let params = parameters_of(alloc, types)?;
    Ok(DeclType {
        decl: own,
        kind: Kind::Fn,
        ty,
        params,
        mutable: false,
        value: Const::Absent,
    })
}

/// Whether a global of this kind may be assigned to.
fn is_mutable(kind: Kind) -> bool
    ensures { result ≡ parts.is_mutable kind }
{
    matches!(kind, Kind::GlobalLet)
}

/// What is known of a global with this type.
pub(crate) fn global_as(alloc: Global, own: u32, kind: Kind, ty: TypeId) -> DeclType
    ensures { result ≡ parts.known_as own kind ty [] (parts.is_mutable kind) constant.Absent }
{
    DeclType {
        decl: own,
        kind,
        ty,
        params: TypeIds::new(alloc),
        mutable: is_mutable(kind),
        value: Const::Absent,
    }
}

/// What is known of a global by its written type. A type that is left out is answered as want of memory.
pub(crate) fn global_known(
    alloc: Global,
    own: u32,
    kind: Kind,
    types: &TypedKids,
) -> Result<DeclType, AllocError>
    ensures { IfOk result (λ d. (l : Store) → d ≡ parts.global_known l own kind (tree_from_front 0 types.now) missing) }
{
    if !is_there(types, 0) {
        return Err(AllocError);
    }
    let ty = written_at(types, 0)?;
    Ok(global_as(alloc, own, kind, ty))
}
