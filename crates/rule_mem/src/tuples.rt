//! The items of a tuple, and its components.

ghost use Rattle.std.specs.Prelude.{◌≡◌, ℕ, Contains, true, Some, IfOk, IfSome, is_some, is_none, option_map, find, length};
ghost use Rattle.hare_tree.specs.declared.kind.Kind.TheVariants as ki;
ghost use Rattle.hare_types.specs.Store.{Store};
ghost use Rattle.hare_types.specs.Later.{IsLater};
ghost use Rattle.hare_rules.specs.Context as context;
ghost use Rattle.hare_rules.specs.Aggregates as spec;
ghost use Rattle.hare_rules.specs.Rows.{holds};
ghost use Rattle.hare_rules.specs.Settles.{target_of};
ghost use Rattle.hare_rules.specs.declared.row_id.RowId.TheVariants as row;
ghost use Rattle.rule_judge.specs.Defined.{IsDefined, IsDefinedTy};
ghost use Rattle.rule_judge.specs.Grown.{IsGrown};
ghost use Rattle.rule_judge.specs.Turns.{context_in, IsTurn};
ghost use Rattle.rule_judge.specs.Asked.{asks_as};

use crate::hints::hinted_components;
use crate::ids::{all_sized, copied, is_small};
use hare_tree::Place;
use hare_types::{Ty, TypeId, TypeIds, TypeStore};
use rule_judge::{Turn, default_in, has_default, own, tuple_of};
use std::alloc::{AllocError, Global};

/// How many items a tuple has.
fn item_count(t: &Turn<'_>) -> usize
    ensures { result ≡ length (spec.but_last t.now.kids.now) }
{
    t.kids.len().saturating_sub(1)
}

/// Whether a hint gives the components.
pub(crate) fn is_hinted(s: &TypeStore, t: &Turn<'_>) -> bool
    requires { IsTurn s.now t.now }
    ensures { (f : Store) → IsLater s.now f → result ≡ spec.is_hinted_tuple (context_in f t.now) }
{
    let case = t.case;
    hinted_components(s, &case.hint, item_count(t)).is_some()
}

/// Where the first item stands that has no default type.
fn first_lacking(t: &Turn<'_>) -> Option<Place>
    ensures { result ≡ option_map context.place_of (find spec.lacks_default (spec.but_last t.now.kids.now)) }
{
    for i in 0..t.kids.len().saturating_sub(1) {
        let Some(item) = t.kids.get(i) else {
            return None;
        };
        if !has_default(&item.ty) {
            return Some(item.place);
        }
    }
    None
}

/// Where the first item stands that has no default type, where no hint gives its type.
pub(crate) fn lacking(s: &TypeStore, t: &Turn<'_>) -> Option<Place>
    requires { IsTurn s.now t.now }
    ensures { (f : Store) → IsLater s.now f → result ≡ option_map context.place_of (spec.tuple_lacking (context_in f t.now)) }
{
    if is_hinted(s, t) {
        return None;
    }
    first_lacking(t)
}

/// The default types of the items; none where one of them has none.
fn defaults(alloc: Global, s: &mut TypeStore, t: &Turn<'_>) -> Result<Option<TypeIds>, AllocError>
    requires { IsTurn s.old t.now }
    ensures value { IfOk result (λ o. (f : Store) → IsLater s.new f → o ≡ spec.defaults f (spec.but_last t.now.kids.now)) }
    ensures there { IfOk result (λ o. is_some o ≡ is_none (find spec.lacks_default (spec.but_last t.now.kids.now))) }
    ensures defined { IfOk result (λ o. IfSome o (λ ts. (i : ℕ) → Contains ts i → IsDefined s.new i)) }
    ensures grown { IsGrown s.old s.new }
{
    let _law = s.declarations();
    let mut types = TypeIds::new(alloc);
    for i in 0..t.kids.len().saturating_sub(1) {
        let item = own(t, i);
        let Some(d) = default_in(s, &item)? else {
            return Ok(None);
        };
        types.push(d)?;
    }
    Ok(Some(types))
}

/// The components: those that a hint gives, or else the default types of the items.
pub(crate) fn components(
    alloc: Global,
    s: &mut TypeStore,
    t: &Turn<'_>,
) -> Result<Option<TypeIds>, AllocError>
    requires { IsTurn s.old t.now }
    ensures value { IfOk result (λ o. (f : Store) → IsLater s.new f → o ≡ spec.tuple_components (context_in f t.now)) }
    ensures there { IfOk result (λ o. (f : Store) → IsLater s.old f → is_some o ≡ holds row.TupleDefaults (context_in f t.now)) }
    ensures defined { IfOk result (λ o. IfSome o (λ ts. (i : ℕ) → Contains ts i → IsDefined s.new i)) }
    ensures grown { IsGrown s.old s.new }
{
    let _law = s.declarations();
    let case = t.case;
    match hinted_components(s, &case.hint, item_count(t)) {
        Some(types) => {
            let copy = copied(alloc, types)?;
            Ok(Some(copy))
        }
        None => {
            let own = defaults(alloc, s, t)?;
            Ok(own)
        }
    }
}

/// Whether each component has a size.
pub(crate) fn are_sized(alloc: Global, s: &mut TypeStore, t: &Turn<'_>) -> Result<bool, AllocError>
    requires { IsTurn s.old t.now }
    ensures value { IfOk result (λ b. (f : Store) → IsLater s.new f → b ≡ holds row.TupleHasSize (context_in f t.now)) }
    ensures grown { IsGrown s.old s.new }
{
    match components(alloc, s, t)? {
        Some(types) => Ok(all_sized(s, types.as_slice())),
        None => Ok(true),
    }
}

/// Whether the tuple is not too large.
pub(crate) fn fits(alloc: Global, s: &mut TypeStore, t: &Turn<'_>) -> Result<bool, AllocError>
    requires { IsTurn s.old t.now }
    ensures value { IfOk result (λ b. (f : Store) → IsLater s.new f → b ≡ holds row.TupleSmall (context_in f t.now)) }
    ensures grown { IsGrown s.old s.new }
{
    let _law = s.declarations();
    match components(alloc, s, t)? {
        Some(types) => {
            let made = tuple_of(s, types)?;
            Ok(is_small(s, made))
        }
        None => Ok(true),
    }
}

/// The type of a tuple whose items have types.
pub(crate) fn tuple_type(alloc: Global, s: &mut TypeStore, t: &Turn<'_>) -> Result<Ty, AllocError>
    requires turn { IsTurn s.old t.now }
    requires met { (f : Store) → IsLater s.old f → holds row.TupleDefaults (context_in f t.now) ≡ true }
    ensures value { IfOk result (λ a. (f : Store) → IsLater s.new f → spec.tuple_type (context_in f t.now) ≡ Some a) }
    ensures defined { IfOk result (IsDefinedTy s.new) }
    ensures grown { IsGrown s.old s.new }
{
    let _law = s.declarations();
    match components(alloc, s, t)? {
        Some(types) => {
            let made = tuple_of(s, types)?;
            Ok(Ty::Of(made))
        }
        None => unreachable!(),
    }
}

/// Whether a tuple asks its kid number `i` for a type: an item, where a hint gives the components.
pub(crate) fn item_asks(s: &TypeStore, t: &Turn<'_>, i: usize) -> bool
    requires { IsTurn s.now t.now }
    ensures { (f : Store) → IsLater s.now f → result ≡ asks_as (context_in f t.now) i ki.Tuple }
{
    if item_count(t) <= i {
        return false;
    }
    is_hinted(s, t)
}

/// The type to which kid number `i` of a tuple goes: its default, where it is an item and no hint gives the components.
pub(crate) fn item_target(
    s: &mut TypeStore,
    t: &Turn<'_>,
    i: usize,
) -> Result<Option<TypeId>, AllocError>
    requires { IsTurn s.old t.now }
    ensures value { IfOk result (λ o. (f : Store) → IsLater s.new f → o ≡ target_of (context_in f t.now) ki.Tuple i) }
    ensures defined { IfOk result (λ o. IfSome o (λ u. IsDefined s.new u)) }
    ensures grown { IsGrown s.old s.new }
{
    let _law = s.declarations();
    if is_hinted(s, t) {
        return Ok(None);
    }
    if item_count(t) <= i {
        return Ok(None);
    }
    let item = own(t, i);
    let d = default_in(s, &item)?;
    Ok(d)
}
