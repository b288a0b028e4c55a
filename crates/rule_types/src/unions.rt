//! Unions.

ghost use Rattle.std.specs.Prelude.{◌≡◌, ◌<◌, ℕ, Some, Contains, length, IfOk, IfErr};
ghost use Rattle.hare_tree.specs.declared.kind.Kind.TheVariants as ki;
ghost use Rattle.hare_types.specs.ByIds.{row_at};
ghost use Rattle.hare_types.specs.Store.{Store};
ghost use Rattle.hare_types.specs.Later.{IsLater};
ghost use Rattle.hare_types.specs.Unions as unions;
ghost use Rattle.hare_types.specs.declared.row.Row.TheVariants as row;
ghost use Rattle.rule_judge.specs.Defined.{IsDefined};
ghost use Rattle.rule_types.specs.Grown.{IsGrown};
ghost use Rattle.rule_types.specs.Known.{IsKnown};
ghost use Rattle.rule_types.specs.Members.{AreMembersKnown, AreMembersDefined};
ghost use Rattle.rule_types.specs.Joinable.{IsMember, AreJoinable, IsLoneKnown};
ghost use Rattle.rule_types.specs.Answers.{IsOwnType, IsOwnStop};

use crate::ids::{MOST_MEMBERS, ascending, listed};
use crate::made::entered;
use crate::members::{all_brought, are_sized, odd_spread};
use crate::reads::is_small;
use crate::written::{Written, stop};
use hare_rules::RowId;
use hare_tree::{Fault, Stop};
use hare_types::{Row, TypeId, TypeStore};
use std::alloc::{AllocError, Global};

/// The type of which these are the members: one alone is itself the type.
fn joined(alloc: Global, s: &mut TypeStore, left: &[TypeId]) -> Result<TypeId, AllocError>
    requires some { 0 < length left.now }
    requires joinable { AreJoinable s.old left.now }
    ensures id { IfOk result (λ u. (f : Store) → IsLater s.new f → unions.joined f left.now ≡ Some u) }
    ensures row { IfOk result (λ u. 1 < length left.now → row_at s.new u ≡ Some (row.Union left.now)) }
    ensures member { IfOk result (λ u. length left.now ≡ 1 → IsMember s.new u) }
    ensures known { IfOk result (λ u. IsLoneKnown s.old left.now → IsKnown s.new u) }
    ensures defined { IfOk result (λ u. ((i : ℕ) → Contains left.now i → IsDefined s.old i) → IsDefined s.new u) }
    ensures grown { IsGrown s.old s.new }
{
    let _law = s.declarations();
    if left.len() == 1 {
        return Ok(left[0]);
    }
    let members = listed(alloc, left)?;
    let u = entered(s, Row::Union(members))?;
    Ok(u)
}

/// A union: what its members bring, each once; one type alone is itself the type.
pub(crate) fn union_type(
    alloc: Global,
    s: &mut TypeStore,
    t: &Written<'_>,
) -> Result<TypeId, Stop<Fault>>
    requires { AreMembersKnown s.old t.now.kids.now }
    ensures ok { IfOk result (IsOwnType s.new t.now ki.TypeUnion) }
    ensures err { IfErr result (IsOwnStop s.new t.now ki.TypeUnion) }
    ensures defined { IfOk result (λ u. AreMembersDefined s.old t.now.kids.now → IsDefined s.new u) }
    ensures grown { IsGrown s.old s.new }
{
    let _law = s.declarations();
    let node = t.node;
    if let Some(place) = odd_spread(s, t.kids) {
        return Err(stop(RowId::UnionSpreads, place));
    }
    if !are_sized(s, t.kids) {
        return Err(stop(RowId::UnionMembersSized, node.place));
    }
    let brought = all_brought(alloc, s, t.kids)?;
    let left = ascending(alloc, brought.as_slice())?;
    if left.is_empty() {
        return Err(stop(RowId::UnionLeft, node.place));
    }
    if left.len() > MOST_MEMBERS {
        return Err(stop(RowId::UnionNarrow, node.place));
    }
    let made = joined(alloc, s, left.as_slice())?;
    if left.len() == 1 {
        return Ok(made);
    }
    if !is_small(s, made) {
        return Err(stop(RowId::UnionSmall, node.place));
    }
    Ok(made)
}
