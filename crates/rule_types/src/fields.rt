//! Structs and tuples.

ghost use Rattle.std.specs.Prelude.{◌≡◌, ◌<◌, ◌-◌, ℕ, Contains, Some, IfOk, IfErr, length};
ghost use Rattle.hare_tree.specs.declared.kind.Kind.TheVariants as ki;
ghost use Rattle.hare_types.specs.Store.{Store};
ghost use Rattle.hare_types.specs.Later.{IsLater};
ghost use Rattle.hare_rules.specs.Aggregates as aggregates;
ghost use Rattle.hare_rules.specs.Written as spec;
ghost use Rattle.rule_judge.specs.Defined.{IsDefined};
ghost use Rattle.rule_types.specs.Grown.{IsGrown};
ghost use Rattle.rule_types.specs.Known.{IsKnown};
ghost use Rattle.rule_types.specs.Parts.{ArePartsKnown, ArePartsDefined};
ghost use Rattle.rule_types.specs.Answers.{IsOwnType, IsOwnStop};

use crate::made::entered;
use crate::parts::part_type;
use crate::reads::{has_size, is_small};
use crate::written::{Written, stop};
use hare_rules::RowId;
use hare_tree::{Fault, Stop};
use hare_typed::TypedKids;
use hare_types::{Field, Fields, Row, Ty, TypeId, TypeIds, TypeStore};
use std::alloc::{AllocError, Global};

/// The types that the components or fields write, without the place of a comma behind them.
fn part_ids(alloc: Global, kids: &TypedKids) -> Result<TypeIds, AllocError>
    requires { (s : Store) × ArePartsKnown s kids.now }
    ensures { IfOk result (λ ts. spec.part_ids (aggregates.but_last kids.now) ≡ Some ts) }
{
    let mut types = TypeIds::new(alloc);
    for i in 0..kids.len().saturating_sub(1) {
        let Some(kid) = kids.get(i) else {
            unreachable!();
        };
        let Ty::Of(u) = part_type(kid) else {
            unreachable!();
        };
        types.push(u)?;
    }
    Ok(types)
}

/// Whether each of the types has a size.
fn all_sized(s: &TypeStore, types: &[TypeId]) -> bool
    requires { (i : ℕ) → Contains types.now i → IsKnown s.now i }
    ensures { (f : Store) → IsLater s.now f → result ≡ aggregates.all_sized f types.now }
{
    for t in types {
        if !has_size(s, *t) {
            return false;
        }
    }
    true
}

/// The fields of a struct, without the place of a comma behind them.
fn fields(alloc: Global, s: &mut TypeStore, kids: &TypedKids) -> Result<Fields, AllocError>
    requires { ArePartsKnown s.old kids.now }
    ensures value { IfOk result (λ fs. (f : Store) → IsLater s.new f → spec.fields f (aggregates.but_last kids.now) ≡ Some fs) }
    ensures types { IfOk result (λ fs. spec.part_ids (aggregates.but_last kids.now) ≡ Some (aggregates.field_types fs)) }
    ensures grown { IsGrown s.old s.new }
{
    let _law = s.declarations();
    let mut fields = Fields::new(alloc);
    for i in 0..kids.len().saturating_sub(1) {
        let Some(kid) = kids.get(i) else {
            unreachable!();
        };
        let Ty::Of(ty) = part_type(kid) else {
            unreachable!();
        };
        let name = s.name(kid.text.bytes())?;
        fields.push(Field { name, ty })?;
    }
    Ok(fields)
}

/// A struct, each field of which has a size.
pub(crate) fn structure(
    alloc: Global,
    s: &mut TypeStore,
    t: &Written<'_>,
) -> Result<TypeId, Stop<Fault>>
    requires { ArePartsKnown s.old t.now.kids.now }
    ensures ok { IfOk result (IsOwnType s.new t.now ki.TypeStruct) }
    ensures err { IfErr result (IsOwnStop s.new t.now ki.TypeStruct) }
    ensures defined { IfOk result (λ u. ArePartsDefined s.old t.now.kids.now → IsDefined s.new u) }
    ensures grown { IsGrown s.old s.new }
{
    let _law = s.declarations();
    let node = t.node;
    let types = part_ids(alloc, t.kids)?;
    if !all_sized(s, types.as_slice()) {
        return Err(stop(RowId::FieldsSized, node.place));
    }
    let list = fields(alloc, s, t.kids)?;
    let made = entered(s, Row::Struct(list))?;
    if !is_small(s, made) {
        return Err(stop(RowId::FieldsSmall, node.place));
    }
    Ok(made)
}

/// A tuple, each component of which has a size.
pub(crate) fn tuple(
    alloc: Global,
    s: &mut TypeStore,
    t: &Written<'_>,
) -> Result<TypeId, Stop<Fault>>
    requires { ArePartsKnown s.old t.now.kids.now }
    ensures ok { IfOk result (IsOwnType s.new t.now ki.TypeTuple) }
    ensures err { IfErr result (IsOwnStop s.new t.now ki.TypeTuple) }
    ensures defined { IfOk result (λ u. ArePartsDefined s.old t.now.kids.now → IsDefined s.new u) }
    ensures grown { IsGrown s.old s.new }
{
    let _law = s.declarations();
    let node = t.node;
    let types = part_ids(alloc, t.kids)?;
    if !all_sized(s, types.as_slice()) {
        return Err(stop(RowId::FieldsSized, node.place));
    }
    let made = entered(s, Row::Tuple(types))?;
    if !is_small(s, made) {
        return Err(stop(RowId::FieldsSmall, node.place));
    }
    Ok(made)
}
