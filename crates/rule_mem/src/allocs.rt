//! The object of an allocation.

ghost use Rattle.std.specs.Prelude.{◌≡◌, true, Some, IfOk, IfSome};
ghost use Rattle.hare_types.specs.Store.{Store};
ghost use Rattle.hare_types.specs.Later.{IsLater};
ghost use Rattle.hare_rules.specs.Aggregates as spec;
ghost use Rattle.hare_rules.specs.Words as words;
ghost use Rattle.hare_rules.specs.Rows.{holds};
ghost use Rattle.hare_rules.specs.declared.row_id.RowId.TheVariants as row;
ghost use Rattle.rule_judge.specs.Defined.{IsDefined, IsDefinedTy};
ghost use Rattle.rule_judge.specs.Grown.{IsGrown};
ghost use Rattle.rule_judge.specs.Turns.{context_in, IsTurn};

use crate::reads::element;
use hare_types::{Scalar, Ty, TypeId, TypeStore};
use rule_judge::{Turn, default_in, has_default, has_size, is_there, seen, word};
use std::alloc::AllocError;

/// Whether an allocation has a capacity.
pub(crate) fn has_capacity(t: &Turn<'_>) -> bool
    ensures { (f : Store) → result ≡ spec.has_capacity (context_in f t.now) }
{
    is_there(t.kids, 1)
}

/// The type of the object that an allocation of one operand makes.
pub(crate) fn object_type(s: &mut TypeStore, t: &Turn<'_>) -> Result<Option<TypeId>, AllocError>
    requires { IsTurn s.old t.now }
    ensures value { IfOk result (λ o. (f : Store) → IsLater s.new f → o ≡ spec.object_type (context_in f t.now)) }
    ensures defined { IfOk result (λ o. IfSome o (λ u. IsDefined s.new u)) }
    ensures grown { IsGrown s.old s.new }
{
    let _law = s.declarations();
    let operand = seen(t, 0);
    let d = default_in(s, &operand)?;
    Ok(d)
}

/// Whether an allocation without a capacity has an operand with a default type.
pub(crate) fn has_object(t: &Turn<'_>) -> bool
    ensures { (f : Store) → result ≡ holds row.AllocDefault (context_in f t.now) }
{
    has_capacity(t) || has_default(&seen(t, 0))
}

/// Whether an allocation without a capacity has an operand with a size.
pub(crate) fn has_sized_object(s: &mut TypeStore, t: &Turn<'_>) -> Result<bool, AllocError>
    requires { IsTurn s.old t.now }
    ensures value { IfOk result (λ b. (f : Store) → IsLater s.new f → b ≡ holds row.AllocHasSize (context_in f t.now)) }
    ensures grown { IsGrown s.old s.new }
{
    let _law = s.declarations();
    if has_capacity(t) {
        return Ok(true);
    }
    let found = object_type(s, t)?;
    match found {
        Some(u) => Ok(has_size(s, u)),
        None => Ok(true),
    }
}

/// Whether an allocation with a capacity has an array or a slice as its operand.
pub(crate) fn has_sequence(s: &TypeStore, t: &Turn<'_>) -> bool
    requires { IsTurn s.now t.now }
    ensures { (f : Store) → IsLater s.now f → result ≡ holds row.AllocSequence (context_in f t.now) }
{
    !has_capacity(t) || element(s, &seen(t, 0)).is_some()
}

/// The default type of a value that has one.
pub(crate) fn default_of(s: &mut TypeStore, a: &Ty) -> Result<TypeId, AllocError>
    requires defined { IsDefinedTy s.old a.now }
    requires met { words.has_default a.now ≡ true }
    ensures value { IfOk result (λ u. (f : Store) → IsLater s.new f → words.default_in f a.now ≡ Some u) }
    ensures defined { IfOk result (IsDefined s.new) }
    ensures grown { IsGrown s.old s.new }
{
    let _law = s.declarations();
    match a {
        Ty::Of(t) => Ok(*t),
        Ty::Iconst(v) => match Scalar::default_of(*v) {
            Some(k) => {
                let u = word(s, k)?;
                Ok(u)
            }
            None => unreachable!(),
        },
        Ty::Null | Ty::Empty => unreachable!(),
    }
}
