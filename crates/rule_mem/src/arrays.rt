//! The items of an array, and its elements.

ghost use Rattle.std.specs.Prelude.{◌≡◌, ◌&&◌, true, not, Some, IfOk, IfSome, is_some, length};
ghost use Rattle.hare_tree.specs.declared.kind.Kind.TheVariants as ki;
ghost use Rattle.hare_types.specs.Store.{Store};
ghost use Rattle.hare_types.specs.Later.{IsLater};
ghost use Rattle.hare_rules.specs.Aggregates as spec;
ghost use Rattle.hare_rules.specs.Rows.{holds};
ghost use Rattle.hare_rules.specs.Settles.{target_of};
ghost use Rattle.hare_rules.specs.declared.row_id.RowId.TheVariants as row;
ghost use Rattle.rule_judge.specs.Defined.{IsDefined, IsDefinedTy};
ghost use Rattle.rule_judge.specs.Grown.{IsGrown};
ghost use Rattle.rule_judge.specs.Turns.{context_in, IsTurn};
ghost use Rattle.rule_judge.specs.Asked.{asks_as};

use crate::hints::{hinted_element, hinted_length};
use crate::ids::is_small;
use hare_types::{Ty, TypeId, TypeStore};
use rule_judge::{Turn, array_of, default_in, has_default, has_size, is_there, kids_before, own};
use std::alloc::AllocError;

/// How many items an array has.
pub(crate) fn item_count(t: &Turn<'_>) -> usize
    ensures { result ≡ length (spec.but_last (spec.but_last t.now.kids.now)) }
{
    t.kids.len().saturating_sub(2)
}

/// Whether `...` stands behind the items.
fn has_dots(t: &Turn<'_>) -> bool
    ensures { result ≡ spec.there (spec.last_of (spec.but_last t.now.kids.now)) }
{
    let count = t.kids.len();
    if count < 2 {
        return false;
    }
    is_there(t.kids, count - 2)
}

/// Whether a hint gives the element.
pub(crate) fn is_hinted(s: &TypeStore, t: &Turn<'_>) -> bool
    requires { IsTurn s.now t.now }
    ensures { (f : Store) → IsLater s.now f → result ≡ is_some (spec.hinted_element f t.now.case.now.hint) }
{
    let case = t.case;
    hinted_element(s, &case.hint).is_some()
}

/// Whether the first item has a default type, where there is one and no hint gives its type.
pub(crate) fn has_first_default(s: &TypeStore, t: &Turn<'_>) -> bool
    requires { IsTurn s.now t.now }
    ensures { (f : Store) → IsLater s.now f → result ≡ holds row.ArrayFirstDefault (context_in f t.now) }
{
    if is_hinted(s, t) {
        return true;
    }
    if item_count(t) == 0 {
        return true;
    }
    has_default(&own(t, 0))
}

/// Whether the hint is an array of at least as many elements as there are items, where `...` stands behind them.
pub(crate) fn is_long(s: &TypeStore, t: &Turn<'_>) -> bool
    requires { IsTurn s.now t.now }
    ensures { (f : Store) → IsLater s.now f → result ≡ holds row.ArrayLong (context_in f t.now) }
{
    if !has_dots(t) {
        return true;
    }
    let case = t.case;
    match hinted_length(s, &case.hint) {
        Some(n) => item_count(t) as u64 <= n,
        None => false,
    }
}

/// How many elements the array has.
pub(crate) fn element_count(s: &TypeStore, t: &Turn<'_>) -> u64
    requires { IsTurn s.now t.now }
    ensures { (f : Store) → IsLater s.now f → result ≡ spec.array_count (context_in f t.now) }
{
    if !has_dots(t) {
        return item_count(t) as u64;
    }
    let case = t.case;
    match hinted_length(s, &case.hint) {
        Some(n) => n,
        None => 0,
    }
}

/// The type of the elements: that which a hint gives, or else the default of the first item.
pub(crate) fn item_type(s: &mut TypeStore, t: &Turn<'_>) -> Result<Option<TypeId>, AllocError>
    requires { IsTurn s.old t.now }
    ensures value { IfOk result (λ o. (f : Store) → IsLater s.new f → o ≡ spec.item_type (context_in f t.now)) }
    ensures there { IfOk result (λ o. (f : Store) → IsLater s.old f →
        is_some o ≡ (not (spec.is_empty_array (context_in f t.now)) && holds row.ArrayFirstDefault (context_in f t.now))) }
    ensures defined { IfOk result (λ o. IfSome o (λ u. IsDefined s.new u)) }
    ensures grown { IsGrown s.old s.new }
{
    let _law = s.declarations();
    let case = t.case;
    if let Some(u) = hinted_element(s, &case.hint) {
        return Ok(Some(u));
    }
    if item_count(t) == 0 {
        return Ok(None);
    }
    let first = own(t, 0);
    let d = default_in(s, &first)?;
    Ok(d)
}

/// Whether the array has no items and no hint gives its type.
pub(crate) fn is_empty(s: &TypeStore, t: &Turn<'_>) -> bool
    requires { IsTurn s.now t.now }
    ensures { (f : Store) → IsLater s.now f → result ≡ spec.is_empty_array (context_in f t.now) }
{
    if is_hinted(s, t) {
        return false;
    }
    item_count(t) == 0
}

/// Whether the element has a size.
pub(crate) fn is_sized(s: &mut TypeStore, t: &Turn<'_>) -> Result<bool, AllocError>
    requires { IsTurn s.old t.now }
    ensures value { IfOk result (λ b. (f : Store) → IsLater s.new f → b ≡ holds row.ArrayHasSize (context_in f t.now)) }
    ensures grown { IsGrown s.old s.new }
{
    match item_type(s, t)? {
        Some(u) => Ok(has_size(s, u)),
        None => Ok(true),
    }
}

/// Whether the array is not too large.
pub(crate) fn fits(s: &mut TypeStore, t: &Turn<'_>) -> Result<bool, AllocError>
    requires { IsTurn s.old t.now }
    ensures value { IfOk result (λ b. (f : Store) → IsLater s.new f → b ≡ holds row.ArraySmall (context_in f t.now)) }
    ensures grown { IsGrown s.old s.new }
{
    let _law = s.declarations();
    let count = element_count(s, t);
    match item_type(s, t)? {
        Some(u) => {
            let made = array_of(s, count, u)?;
            Ok(is_small(s, made))
        }
        None => Ok(true),
    }
}

/// The type of an array whose first item has a type, where there is one.
pub(crate) fn array_type(s: &mut TypeStore, t: &Turn<'_>) -> Result<Ty, AllocError>
    requires turn { IsTurn s.old t.now }
    requires met { (f : Store) → IsLater s.old f → holds row.ArrayFirstDefault (context_in f t.now) ≡ true }
    ensures value { IfOk result (λ a. (f : Store) → IsLater s.new f → spec.array_type (context_in f t.now) ≡ Some a) }
    ensures defined { IfOk result (IsDefinedTy s.new) }
    ensures grown { IsGrown s.old s.new }
{
    let _law = s.declarations();
    if is_empty(s, t) {
        return Ok(Ty::Empty);
    }
    let count = element_count(s, t);
    match item_type(s, t)? {
        Some(u) => {
            let made = array_of(s, count, u)?;
            Ok(Ty::Of(made))
        }
        None => unreachable!(),
    }
}

/// Whether an array asks its kid number `i` for a type: for the element that a hint gives, or else, behind the first, for the default of
/// that.
pub(crate) fn item_asks(s: &mut TypeStore, t: &Turn<'_>, i: usize) -> Result<bool, AllocError>
    requires { IsTurn s.old t.now }
    ensures value { IfOk result (λ b. (f : Store) → IsLater s.new f → b ≡ asks_as (context_in f t.now) i ki.Array) }
    ensures grown { IsGrown s.old s.new }
{
    let _law = s.declarations();
    if is_hinted(s, t) {
        return Ok(true);
    }
    if kids_before(t.kids, i) == 0 {
        return Ok(false);
    }
    let first = own(t, 0);
    let d = default_in(s, &first)?;
    Ok(d.is_some())
}

/// The type to which kid number `i` of an array goes: its default, where it is the first item and no hint gives the element.
pub(crate) fn item_target(
    s: &mut TypeStore,
    t: &Turn<'_>,
    i: usize,
) -> Result<Option<TypeId>, AllocError>
    requires { IsTurn s.old t.now }
    ensures value { IfOk result (λ o. (f : Store) → IsLater s.new f → o ≡ target_of (context_in f t.now) ki.Array i) }
    ensures defined { IfOk result (λ o. IfSome o (λ u. IsDefined s.new u)) }
    ensures grown { IsGrown s.old s.new }
{
    let _law = s.declarations();
    if i != 0 {
        return Ok(None);
    }
    if item_count(t) == 0 {
        return Ok(None);
    }
    if is_hinted(s, t) {
        return Ok(None);
    }
    let item = own(t, i);
    let d = default_in(s, &item)?;
    Ok(d)
}
