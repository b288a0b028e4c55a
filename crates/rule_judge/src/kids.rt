//! The coercions of kids that were asked for no type.

ghost use Rattle.std.specs.Prelude.{◌≡◌, true, None, Some, IfOk, IfSome};
ghost use Rattle.hare_types.specs.Store.{Store};
ghost use Rattle.hare_types.specs.Later.{IsLater};
ghost use Rattle.hare_rules.specs.Above as above;
ghost use Rattle.hare_rules.specs.Judged as spec;
ghost use Rattle.hare_rules.specs.Types.{type_of};
ghost use Rattle.rule_judge.specs.Asked.{listed, own_failing};
ghost use Rattle.rule_judge.specs.Defined.{IsDefinedTy, AreDefinedCoercions};
ghost use Rattle.rule_judge.specs.Grown.{IsGrown};
ghost use Rattle.rule_judge.specs.Turns.{context_in, kind_in, IsTurn};

use crate::rules::Rules;
use crate::sites::to_type;
use crate::told::{kind_at, type_at};
use crate::turn::Turn;
use hare_rules::Coercions;
use hare_tree::Kind;
use hare_types::{Coercion, Ty, TypeStore};
use std::alloc::{AllocError, Global};

/// Whether a part of this kind is no expression and no statement: nothing is asked of it.
fn is_bare_part(k: Kind) -> bool
    ensures { result ≡ above.is_bare_part k }
{
    matches!(
        k,
        Kind::None
            | Kind::TrailingComma
            | Kind::Dots
            | Kind::Message
            | Kind::ByRef
            | Kind::Name
            | Kind::Export
            | Kind::Params
            | Kind::Param
            | Kind::StructField
            | Kind::Spread
            | Kind::Binding
            | Kind::PatternLet
            | Kind::PatternNull
            | Kind::TypeScalar
            | Kind::TypePath
            | Kind::TypePointer
            | Kind::TypeNullable
            | Kind::TypeSlice
            | Kind::TypeArray
            | Kind::TypeStruct
            | Kind::TypeTuple
            | Kind::TypeUnion
            | Kind::TypeError
    )
}

/// Whether kid number `i` was asked for a type, or hands one on.
fn was_hinted<R: Rules>(
    alloc: Global,
    s: &mut TypeStore,
    t: &Turn<'_>,
    i: usize,
) -> Result<bool, AllocError>
    requires kind { R.judges (kind_in t.now) ≡ true }
    requires turn { IsTurn s.old t.now }
    requires needs { R.Needs s.old t.now }
    ensures value { IfOk result (λ b. (f : Store) → IsLater s.new f → b ≡ spec.was_hinted (context_in f t.now) i) }
    ensures grown { IsGrown s.old s.new }
{
    let _law = s.declarations();
    let kind = kind_at(t.kids, i);
    if kind == Kind::Values {
        return Ok(true);
    }
    if is_bare_part(kind) {
        return Ok(false);
    }
    R::asks_type(alloc, s, t, i)
}

/// The coercion of kid number `i`, where it was asked for no type. What the node gives has the type `ty`.
fn kid_coercion<R: Rules>(
    alloc: Global,
    s: &mut TypeStore,
    t: &Turn<'_>,
    ty: &Ty,
    i: usize,
) -> Result<Option<Coercion>, AllocError>
    requires kind { R.judges (kind_in t.now) ≡ true }
    requires turn { IsTurn s.old t.now }
    requires needs { R.Needs s.old t.now }
    requires rows { (f : Store) → IsLater s.old f → own_failing (context_in f t.now) ≡ None }
    requires gives { (f : Store) → IsLater s.old f → type_of (context_in f t.now) ≡ Some ty.now }
    requires defined { IsDefinedTy s.old ty.now }
    ensures value { IfOk result (λ o. (f : Store) → IsLater s.new f → o ≡ listed (context_in f t.now) i) }
    ensures defined { IfOk result (λ o. IfSome o (λ r. IsDefinedTy s.new r.to)) }
    ensures grown { IsGrown s.old s.new }
{
    let _law = s.declarations();
    if was_hinted::<R>(alloc, s, t, i)? {
        return Ok(None);
    }
    let to = R::target(alloc, s, t, ty, i)?;
    let own = type_at(t.kids, i);
    Ok(Some(to_type(s, &own, &to)))
}

/// The coercions of the kids that were asked for no type, in order. What the node gives has the type `ty`.
pub(crate) fn kid_coercions<R: Rules>(
    alloc: Global,
    s: &mut TypeStore,
    t: &Turn<'_>,
    ty: &Ty,
) -> Result<Coercions, AllocError>
    requires kind { R.judges (kind_in t.now) ≡ true }
    requires turn { IsTurn s.old t.now }
    requires needs { R.Needs s.old t.now }
    requires rows { (f : Store) → IsLater s.old f → own_failing (context_in f t.now) ≡ None }
    requires gives { (f : Store) → IsLater s.old f → type_of (context_in f t.now) ≡ Some ty.now }
    requires defined { IsDefinedTy s.old ty.now }
    ensures value { IfOk result (λ rs. (f : Store) → IsLater s.new f → rs ≡ spec.coercions_from (context_in f t.now) 0 t.now.kids.now) }
    ensures defined { IfOk result (AreDefinedCoercions s.new) }
    ensures grown { IsGrown s.old s.new }
{
    let _law = s.declarations();
    let mut coercions = Coercions::new(alloc);
    for i in 0..t.kids.len() {
        if let Some(r) = kid_coercion::<R>(alloc, s, t, ty, i)? {
            coercions.push(r)?;
        }
    }
    Ok(coercions)
}
