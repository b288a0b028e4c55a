//! Pointers, slices and error types.

ghost use Rattle.std.specs.Prelude.{◌≡◌, IfOk, IfErr};
ghost use Rattle.hare_tree.specs.declared.kind.Kind.TheVariants as ki;
ghost use Rattle.hare_typed.specs.Order.{tree_from_front};
ghost use Rattle.hare_rules.specs.Context.{own_type};
ghost use Rattle.rule_judge.specs.Defined.{IsDefined, IsDefinedTy};
ghost use Rattle.rule_types.specs.Grown.{IsGrown};
ghost use Rattle.rule_types.specs.Known.{IsKnownTy};
ghost use Rattle.rule_types.specs.Answers.{IsOwnType, IsOwnStop};

use crate::made::entered;
use crate::parts::part;
use crate::reads::has_size;
use crate::written::{Written, stop};
use hare_rules::RowId;
use hare_tree::{Fault, Stop};
use hare_types::{Row, TypeId, TypeStore};
use std::alloc::AllocError;

/// A pointer that is never null.
pub(crate) fn pointer(s: &mut TypeStore, t: &Written<'_>) -> Result<TypeId, AllocError>
    requires { IsKnownTy s.old (own_type (tree_from_front 0 t.now.kids.now)) }
    ensures ok { IfOk result (IsOwnType s.new t.now ki.TypePointer) }
    ensures defined { IfOk result (λ u. IsDefinedTy s.old (own_type (tree_from_front 0 t.now.kids.now)) → IsDefined s.new u) }
    ensures grown { IsGrown s.old s.new }
{
    let u = part(t.kids, 0);
    entered(s, Row::Pointer(u))
}

/// A pointer that may be null.
pub(crate) fn nullable(s: &mut TypeStore, t: &Written<'_>) -> Result<TypeId, AllocError>
    requires { IsKnownTy s.old (own_type (tree_from_front 0 t.now.kids.now)) }
    ensures ok { IfOk result (IsOwnType s.new t.now ki.TypeNullable) }
    ensures defined { IfOk result (λ u. IsDefinedTy s.old (own_type (tree_from_front 0 t.now.kids.now)) → IsDefined s.new u) }
    ensures grown { IsGrown s.old s.new }
{
    let u = part(t.kids, 0);
    entered(s, Row::Nullable(u))
}

/// An error type.
pub(crate) fn error(s: &mut TypeStore, t: &Written<'_>) -> Result<TypeId, AllocError>
    requires { IsKnownTy s.old (own_type (tree_from_front 0 t.now.kids.now)) }
    ensures ok { IfOk result (IsOwnType s.new t.now ki.TypeError) }
    ensures defined { IfOk result (λ u. IsDefinedTy s.old (own_type (tree_from_front 0 t.now.kids.now)) → IsDefined s.new u) }
    ensures grown { IsGrown s.old s.new }
{
    let _law = s.declarations();
    let u = part(t.kids, 0);
    let made = entered(s, Row::Error(u))?;
    Ok(made)
}

/// A slice, whose element has a size.
pub(crate) fn slice(s: &mut TypeStore, t: &Written<'_>) -> Result<TypeId, Stop<Fault>>
    requires { IsKnownTy s.old (own_type (tree_from_front 0 t.now.kids.now)) }
    ensures ok { IfOk result (IsOwnType s.new t.now ki.TypeSlice) }
    ensures err { IfErr result (IsOwnStop s.new t.now ki.TypeSlice) }
    ensures defined { IfOk result (λ u. IsDefinedTy s.old (own_type (tree_from_front 0 t.now.kids.now)) → IsDefined s.new u) }
    ensures grown { IsGrown s.old s.new }
{
    let _law = s.declarations();
    let u = part(t.kids, 0);
    if !has_size(s, u) {
        let node = t.node;
        return Err(stop(RowId::SliceElementSized, node.place));
    }
    let made = entered(s, Row::Slice(u))?;
    Ok(made)
}
