//! What two operands have in common.

ghost use Rattle.std.specs.Prelude.{◌≡◌, IfSome, is_some};
ghost use Rattle.hare_types.specs.Store.{Store};
ghost use Rattle.hare_types.specs.Later.{IsLater};
ghost use Rattle.hare_types.specs.declared.coercion.Ty.TheVariants.{Of};
ghost use Rattle.hare_rules.specs.Words as words;
ghost use Rattle.rule_judge.specs.Defined.{IsDefined, IsDefinedTy};

use hare_types::{Row, Scalar, Ty, TypeId, TypeStore};
use rule_judge::{integer_word, row_in};

/// Whether both are whole numbers without a suffix.
pub(crate) fn are_iconsts(a: &Ty, b: &Ty) -> bool
    ensures { result ≡ words.are_iconsts a.now b.now }
{
    matches!(a, Ty::Iconst(_)) && matches!(b, Ty::Iconst(_))
}

/// The word that a type itself is; none where it is not written by one.
fn own_word(s: &TypeStore, a: &Ty) -> Option<Scalar>
    requires { IsDefinedTy s.now a.now }
    ensures { (f : Store) → IsLater s.now f → result ≡ words.word_of (words.row_in f a.now) }
{
    match row_in(s, a) {
        Some(Row::Scalar(k)) => Some(*k),
        _ => None,
    }
}

/// Whether both are unnamed integer types of one signedness, the second strictly wider.
fn widens(s: &TypeStore, a: &Ty, b: &Ty) -> bool
    requires first { IsDefinedTy s.now a.now }
    requires second { IsDefinedTy s.now b.now }
    ensures { (f : Store) → IsLater s.now f → result ≡ words.widens f a.now b.now }
{
    match (own_word(s, a), own_word(s, b)) {
        (Some(j), Some(k)) => j.widens_to(k),
        _ => false,
    }
}

/// Whether the base of the type is an integer type that holds the number.
fn holds(s: &TypeStore, t: TypeId, v: i128) -> bool
    requires { IsDefined s.now t }
    ensures { (f : Store) → IsLater s.now f → result ≡ words.holds_in (words.integer_word f (Of t)) v }
{
    match integer_word(s, &Ty::Of(t)) {
        Some(k) => k.holds(v),
        None => false,
    }
}

/// The common type of two types.
fn common_of_types(s: &TypeStore, t: TypeId, u: TypeId) -> Option<TypeId>
    requires first { IsDefined s.now t }
    requires second { IsDefined s.now u }
    ensures value { (f : Store) → IsLater s.now f → result ≡ words.common_type (words.common_of_types f t u) }
    ensures defined { IfSome result (IsDefined s.now) }
{
    let a = Ty::Of(t);
    let b = Ty::Of(u);
    if t == u && integer_word(s, &a).is_some() {
        Some(t)
    } else if widens(s, &a, &b) {
        Some(u)
    } else if widens(s, &b, &a) {
        Some(t)
    } else {
        None
    }
}

/// The common type of two operands: that of both, where they are equal and have an integer base; the other type, where one is a whole
/// number without a suffix and the other has an integer base that holds it; the wider of two unnamed integer types of one signedness.
pub(crate) fn common_type(s: &TypeStore, a: &Ty, b: &Ty) -> Option<TypeId>
    requires first { IsDefinedTy s.now a.now }
    requires second { IsDefinedTy s.now b.now }
    ensures value { (f : Store) → IsLater s.now f → result ≡ words.common_type (words.common f a.now b.now) }
    ensures defined { IfSome result (IsDefined s.now) }
{
    match a {
        Ty::Of(t) => match b {
            Ty::Of(u) => common_of_types(s, *t, *u),
            Ty::Iconst(v) => { if holds(s, *t, *v) { Some(*t) } else { None } }
            Ty::Null | Ty::Empty => None,
        },
        Ty::Iconst(v) => match b {
            Ty::Of(u) => { if holds(s, *u, *v) { Some(*u) } else { None } }
            Ty::Iconst(_) | Ty::Null | Ty::Empty => None,
        },
        Ty::Null | Ty::Empty => None,
    }
}

/// Whether two operands have something in common: a type, or that both are whole numbers without a suffix.
pub(crate) fn has_common(s: &TypeStore, a: &Ty, b: &Ty) -> bool
    requires first { IsDefinedTy s.now a.now }
    requires second { IsDefinedTy s.now b.now }
    ensures { (f : Store) → IsLater s.now f → result ≡ is_some (words.common f a.now b.now) }
{
    are_iconsts(a, b) || common_type(s, a, b).is_some()
}
