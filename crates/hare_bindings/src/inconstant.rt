//! Where the value of a declaration is not constant.

ghost use Rattle.std.specs.Prelude.{◌≡◌, ◌<◌, ◌-◌, ◌^◌, true, false, not, IfOk};
ghost use Rattle.hare_types.specs.Store.{Store};
ghost use Rattle.hare_types.specs.Later.{IsLater};
ghost use Rattle.hare_typed.specs.Typed.{mark_of, typed_nodes};
ghost use Rattle.hare_rules.specs.Constants.{is_absent_value};
ghost use Rattle.hare_rules.specs.Context.{own_type};
ghost use Rattle.rule_judge.specs.Defined.{IsDefinedTy, AreDefinedTrees};
ghost use Rattle.rule_judge.specs.Grown.{IsGrown};
ghost use Rattle.hare_bindings.specs.Own as spec;

use hare_const::{constant_cells, is_coherent, is_settled, law_constants_stay};
use hare_copies::copy_tree;
use hare_tree::{Place, Stop};
use hare_typed::{Const, Typed, TypedKids};
use hare_types::TypeStore;
use rule_judge::{default_in, is_there, to_type};
use std::alloc::{AllocError, Global};

/// Whether a constant stands at the value.
fn has_constant(value: &Typed) -> bool
    ensures { result ≡ not (is_absent_value (mark_of value.now).value) }
{
    match value.value {
        Const::Known { .. } => true,
        Const::Absent => false,
    }
}

/// The value with the coercion to its default.
fn with_default(alloc: Global, s: &mut TypeStore, value: &Typed) -> Result<Typed, AllocError>
    requires { IsDefinedTy s.old (own_type value.now) }
    ensures value { IfOk result (λ x. (f : Store) → IsLater s.new f → x ≡ spec.in_the_end f false value.now) }
    ensures grown { IsGrown s.old s.new }
{
    let _law = s.declarations();
    let mut copy = copy_tree(alloc, value)?;
    let to = default_in(s, &value.ty)?;
    copy.coerce = to_type(s, &value.ty, &to);
    Ok(copy)
}

/// The value as it is in the end: as it stands where a type is written, and else with the coercion to its default.
fn in_the_end(
    alloc: Global,
    s: &mut TypeStore,
    written: bool,
    value: &Typed,
) -> Result<Typed, AllocError>
    requires { IsDefinedTy s.old (own_type value.now) }
    ensures value { IfOk result (λ x. (f : Store) → IsLater s.new f → x ≡ spec.in_the_end f written value.now) }
    ensures grown { IsGrown s.old s.new }
{
    let _law = s.declarations();
    if written {
        return copy_tree(alloc, value);
    }
    with_default(alloc, s, value)
}

/// Where the first node of a value of the declaration `own` stands, in check order, that is not constant or would abort; want of memory
/// where that cannot be told.
fn place_inside(
    alloc: Global,
    s: &TypeStore,
    own: u32,
    value: &Typed,
) -> Result<Option<Place>, AllocError>
    requires { own < 2 ^ 32 - 1 }
    ensures { IfOk result (λ o. (f : Store) → IsLater s.now f → o ≡ spec.place_inside f own value.now) }
{
    let _law = s.declarations();
    law_constants_stay();
    if !is_settled(s, value) {
        return Err(AllocError);
    }
    if !is_coherent(alloc, s, own, value)? {
        return Err(AllocError);
    }
    match constant_cells(alloc, s, own, value) {
        Ok(_) => Ok(None),
        Err(Stop::Fault(fault)) => Ok(Some(fault.place)),
        Err(Stop::Memory) => Err(AllocError),
    }
}

/// Where the value among these kids of a declaration is not constant, where it has no constant.
pub(crate) fn inconstant_place(
    alloc: Global,
    s: &mut TypeStore,
    own: u32,
    kids: &TypedKids,
) -> Result<Option<Place>, AllocError>
    requires { AreDefinedTrees s.old (typed_nodes kids.now) }
    ensures place { IfOk result (spec.IsPlaceAmong s.new own kids.now) }
    ensures grown { IsGrown s.old s.new }
{
    let _law = s.declarations();
    let Some(value) = kids.get(3) else {
        return Err(AllocError);
    };
    if has_constant(value) {
        return Ok(None);
    }
    if own == u32::MAX {
        return Err(AllocError);
    }
    let last = in_the_end(alloc, s, is_there(kids, 2), value)?;
    place_inside(alloc, s, own, &last)
}
