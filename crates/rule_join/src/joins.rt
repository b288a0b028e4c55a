//! How values come together in one type.

ghost use Rattle.std.specs.Prelude.{◌≡◌, ℕ, List, None, Some, Option, IfOk, IfSome, IsSome, cond, find, is_none, is_some, not, option_map};
ghost use Rattle.hare_types.specs.Store.{Store};
ghost use Rattle.hare_types.specs.Later.{IsLater};
ghost use Rattle.hare_rules.specs.Context.{Given};
ghost use Rattle.hare_rules.specs.Joined as joined;
ghost use Rattle.hare_rules.specs.Settles as settles;
ghost use Rattle.hare_rules.specs.Words as words;
ghost use Rattle.hare_rules.specs.declared.hint.Hint.TheVariants as hint;
ghost use Rattle.rule_judge.specs.Defined.{IsDefined, IsDefinedTy};
ghost use Rattle.rule_judge.specs.Grown.{IsGrown};
ghost use Rattle.rule_judge.specs.Turns.{context_in, IsTurn};
ghost use Rattle.rule_join.specs.Together as spec;

use crate::values::{Source, count, end_word, ends, first_going, value_at};
use hare_rules::{Hint, Yielded};
use hare_tree::Place;
use hare_types::{Scalar, Ty, TypeId, TypeStore};
use rule_judge::{Turn, coerced, default_in, has_default, void_fits, word};
use std::alloc::AllocError;

/// The id of a type.
fn id_in(ty: &Ty) -> Option<TypeId>
    ensures { result ≡ words.id_in ty.now }
{
    match ty {
        Ty::Of(id) => Some(*id),
        Ty::Iconst(_) => None,
        Ty::Null => None,
        Ty::Empty => None,
    }
}

/// The default of the first value that goes on, in the order of the source; else void of an end, and `never` without one. None where that
/// value has no default.
pub(crate) fn joined_default(
    s: &mut TypeStore,
    v: Source,
    t: &Turn<'_>,
) -> Result<Option<TypeId>, AllocError>
    requires { IsTurn s.old t.now }
    ensures value { IfOk result (λ o. (f : Store) → IsLater s.new f →
        o ≡ joined.joined f hint.None (spec.together v (context_in f t.now))) }
    ensures there { IfOk result (λ o. (f : Store) → IsLater s.new f →
        is_some o ≡ is_none (joined.first_lacking f hint.None (spec.together v (context_in f t.now)))) }
    ensures defined { IfOk result (λ o. IfSome o (IsDefined s.new)) }
    ensures grown { IsGrown s.old s.new }
{
    let _law = s.declarations();
    match first_going(s, v, t) {
        Some(y) => {
            let d = default_in(s, &y.ty)?;
            Ok(d)
        }
        None => {
            let k = end_word(s, v, t);
            let made = word(s, k)?;
            Ok(Some(made))
        }
    }
}

/// The type of what comes together: under a hint of a type that type, and void where it is dropped; else the default of the first value
/// that goes on. None where that value has no default.
pub(crate) fn joined_type(
    s: &mut TypeStore,
    v: Source,
    t: &Turn<'_>,
) -> Result<Option<TypeId>, AllocError>
    requires { IsTurn s.old t.now }
    ensures value { IfOk result (λ o. (f : Store) → IsLater s.new f →
        o ≡ joined.joined f t.now.case.now.hint (spec.together v (context_in f t.now))) }
    ensures there { IfOk result (λ o. (f : Store) → IsLater s.new f →
        is_some o ≡ is_none (joined.first_lacking f t.now.case.now.hint (spec.together v (context_in f t.now)))) }
    ensures defined { IfOk result (λ o. IfSome o (IsDefined s.new)) }
    ensures grown { IsGrown s.old s.new }
{
    let _law = s.declarations();
    let case = t.case;
    match case.hint {
        Hint::Of(to) => Ok(Some(to)),
        Hint::Drop => {
            let void = word(s, Scalar::Void)?;
            Ok(Some(void))
        }
        Hint::None => {
            let o = joined_default(s, v, t)?;
            Ok(o)
        }
    }
}

/// The type to which the values go that were asked for none: that of what comes together, `ty`. None where they stay as they are.
pub(crate) fn joined_target(t: &Turn<'_>, ty: &Ty) -> Option<TypeId>
    ensures value { (f : Store) (vs : List Given) → words.typed_as (joined.joined f t.now.case.now.hint vs) ≡ Some ty.now →
        result ≡ settles.joined_target f t.now.case.now.hint vs }
    ensures defined { (s : Store) → IsDefinedTy s ty.now → IfSome result (IsDefined s) }
{
    let case = t.case;
    match case.hint {
        Hint::Of(_) => None,
        Hint::Drop => None,
        Hint::None => id_in(ty),
    }
}

/// Where the value stands, where it has no default.
fn lacking_of(o: &Option<Yielded>) -> Option<Place>
    ensures { result ≡ option_map spec.place_told (spec.without_default o.now) }
{
    match o {
        Some(y) => {
            if has_default(&y.ty) {
                None
            } else {
                Some(y.place)
            }
        }
        None => None,
    }
}

/// Where the first value stands that goes on, where it has no default and one is asked for.
pub(crate) fn lacking(s: &TypeStore, v: Source, t: &Turn<'_>) -> Option<Place>
    requires { IsTurn s.now t.now }
    ensures { (f : Store) → IsLater s.now f → result ≡ spec.lacking v (context_in f t.now) }
{
    let case = t.case;
    match case.hint {
        Hint::Of(_) => None,
        Hint::Drop => None,
        Hint::None => {
            let first = first_going(s, v, t);
            lacking_of(&first)
        }
    }
}

/// Where the first value stands that may not be assigned to the type, the end not looked at.
fn listed_misfit(s: &TypeStore, v: Source, t: &Turn<'_>, to: TypeId) -> Option<Place>
    requires turn { IsTurn s.now t.now }
    requires to { IsDefined s.now to }
    ensures { (f : Store) → IsLater s.now f → result ≡ option_map spec.place_told
        (find (λ y. not (words.fits f y.ty to)) (spec.listed_in v t.now)) }
{
    for i in 0..count(v, t) {
        let y = value_at(v, t, i);
        if coerced(s, &y.ty, to).is_none() {
            return Some(y.place);
        }
    }
    None
}

/// Where the end stands, where it is one of the values and void may not be assigned to the type.
fn end_misfit(
    s: &mut TypeStore,
    v: Source,
    t: &Turn<'_>,
    to: TypeId,
) -> Result<Option<Place>, AllocError>
    requires turn { IsTurn s.old t.now }
    requires to { IsDefined s.old to }
    ensures value { IfOk result (λ o. (f : Store) → IsLater s.new f → o ≡ spec.end_misfit v (context_in f t.now) to) }
    ensures grown { IsGrown s.old s.new }
{
    let _law = s.declarations();
    let node = t.node;
    if !ends(s, v, t) {
        return Ok(None);
    }
    let fit = void_fits(s, to)?;
    if fit {
        return Ok(None);
    }
    Ok(Some(node.place))
}

/// Where the first value stands that may not be assigned to the type; an end is the last of them.
fn misfit_to(
    s: &mut TypeStore,
    v: Source,
    t: &Turn<'_>,
    to: TypeId,
) -> Result<Option<Place>, AllocError>
    requires turn { IsTurn s.old t.now }
    requires to { IsDefined s.old to }
    ensures value { IfOk result (λ o. (f : Store) → IsLater s.new f →
        o ≡ option_map spec.place_in (find (λ g. not (joined.given_fits f to g)) (spec.together v (context_in f t.now)))) }
    ensures grown { IsGrown s.old s.new }
{
    let _law = s.declarations();
    match listed_misfit(s, v, t, to) {
        Some(place) => Ok(Some(place)),
        None => {
            let o = end_misfit(s, v, t, to)?;
            Ok(o)
        }
    }
}

/// Where the first value stands that does not fit the default of the first that goes on.
fn free_misfit(s: &mut TypeStore, v: Source, t: &Turn<'_>) -> Result<Option<Place>, AllocError>
    requires { IsTurn s.old t.now }
    ensures value { IfOk result (λ o. (f : Store) → IsLater s.new f →
        o ≡ option_map spec.place_in (joined.first_misfit f hint.None (spec.together v (context_in f t.now)))) }
    ensures grown { IsGrown s.old s.new }
{
    let _law = s.declarations();
    let joined = joined_default(s, v, t)?;
    match joined {
        Some(to) => {
            let o = misfit_to(s, v, t, to)?;
            Ok(o)
        }
        None => Ok(None),
    }
}

/// Where the first value stands that does not fit the type of all. Under a hint of a type it can be the end alone: each other value has
/// been judged by the hint.
pub(crate) fn misfit(
    s: &mut TypeStore,
    v: Source,
    t: &Turn<'_>,
) -> Result<Option<Place>, AllocError>
    requires { IsTurn s.old t.now }
    ensures value { IfOk result (λ o. (f : Store) → IsLater s.new f → o ≡ spec.misfit v (context_in f t.now)) }
    ensures grown { IsGrown s.old s.new }
{
    let _law = s.declarations();
    let case = t.case;
    match case.hint {
        Hint::Of(to) => {
            let o = end_misfit(s, v, t, to)?;
            Ok(o)
        }
        Hint::Drop => Ok(None),
        Hint::None => {
            let o = free_misfit(s, v, t)?;
            Ok(o)
        }
    }
}
