//! The members of unions, and what is left of a union without its error members.

ghost use Rattle.std.specs.Prelude.{◌≡◌, ◌≤◌, ℕ, true, length, filter, not, is_some, option_and_then, option_copied, Contains, IfOk, IfSome, Some};
ghost use Rattle.hare_types.specs.ByIds.{is_error_at};
ghost use Rattle.hare_types.specs.Rows.{AreMembers};
ghost use Rattle.hare_types.specs.Store.{Store};
ghost use Rattle.hare_types.specs.Later.{IsLater};
ghost use Rattle.hare_types.specs.Unions as unions;
ghost use Rattle.hare_types.specs.declared.coercion.Ty.TheVariants.{Of};
ghost use Rattle.hare_typed.specs.Given.{pointee_in};
ghost use Rattle.hare_rules.specs.Operators as operators;
ghost use Rattle.hare_rules.specs.Words as words;
ghost use Rattle.rule_judge.specs.Defined.{IsDefined, IsDefinedTy};
ghost use Rattle.rule_judge.specs.Grown.{IsGrown};

use crate::bases::{base_row, row_in};
use crate::errors::is_error;
use crate::made::{entered, word};
use hare_types::{Row, Scalar, Ty, TypeId, TypeIds, TypeStore};
use std::alloc::{AllocError, Global};

/// The members of the union that is the base of the type; none where the base is no union. The condition is that the type is in the store,
/// and mentions no name that is not defined.
pub fn members_in<'s>(s: &'s TypeStore, a: &Ty) -> Option<&'s [TypeId]>
    requires { IsDefinedTy s.now a.now }
    ensures value { (f : Store) → IsLater s.now f → option_copied result ≡ words.members_in f a.now }
    ensures defined { IfSome result (λ is. (i : ℕ) → Contains is.now i → IsDefined s.now i) }
    ensures reduced { IfSome result (λ is. AreMembers s.now.rows is.now) }
{
    let _law = s.declarations();
    match base_row(s, a) {
        Some(Row::Union(members)) => Some(members.as_slice()),
        _ => None,
    }
}

/// Whether the type is one of these.
fn is_among(t: TypeId, types: &[TypeId]) -> bool
    ensures { result ≡ words.is_among t types.now }
{
    for u in types {
        if *u == t {
            return true;
        }
    }
    false
}

/// Whether the type is that of a pointer to `u` that is never null, and no name of it.
fn is_pointer_to(s: &TypeStore, t: TypeId, u: TypeId) -> bool
    requires { IsDefined s.now t }
    ensures { (f : Store) → IsLater s.now f → result ≡ words.same_id (Some u) (pointee_in (words.row_in f (Of t))) }
{
    match row_in(s, &Ty::Of(t)) {
        Some(Row::Pointer(v)) => *v == u,
        _ => false,
    }
}

/// Whether the type is a member of the union that is the base of `a`; where that is `nullable *X`, whether it is `*X` itself. The condition
/// is that both types are in the store, and mention no name that is not defined.
pub fn is_member(s: &TypeStore, a: &Ty, t: TypeId) -> bool
    requires value { IsDefinedTy s.now a.now }
    requires member { IsDefined s.now t }
    ensures { (f : Store) → IsLater s.now f → result ≡ operators.is_member_at f a.now (Some t) }
{
    match base_row(s, a) {
        Some(Row::Union(members)) => is_among(t, members.as_slice()),
        Some(Row::Nullable(u)) => is_pointer_to(s, t, *u),
        _ => false,
    }
}

/// Those of the types that are no error types.
fn values(alloc: Global, s: &TypeStore, members: &[TypeId]) -> Result<TypeIds, AllocError>
    requires { (i : ℕ) → Contains members.now i → IsDefined s.now i }
    ensures { IfOk result (λ is. (f : Store) → IsLater s.now f → is ≡ filter (λ i. not (is_error_at f i)) members.now) }
{
    let mut left = TypeIds::new(alloc);
    for member in members {
        if !is_error(s, *member) {
            left.push(*member)?;
        }
    }
    Ok(left)
}

/// The type of which these are the members: one alone is itself the type, and of none it is `never`.
fn joined_or_never(s: &mut TypeStore, members: TypeIds) -> Result<TypeId, AllocError>
    requires defined { (i : ℕ) → Contains members i → IsDefined s.old i }
    requires reduced { 2 ≤ length members → AreMembers s.old.rows members }
    ensures id { IfOk result (λ t. (f : Store) → IsLater s.new f → unions.joined_or_never f members ≡ Some t) }
    ensures defined { IfOk result (IsDefined s.new) }
    ensures grown { IsGrown s.old s.new }
{
    let _law = s.declarations();
    if members.len() > 1 {
        return entered(s, Row::Union(members));
    }
    match members.get(0) {
        Some(member) => Ok(*member),
        None => word(s, Scalar::Never),
    }
}

/// What is left of the union that is the base of the type without its error members: one member alone is itself that type, and where none
/// is left it is `never`.
///
/// The conditions are that the base of the type is a union, and that the type is in the store, and mentions no name that is not defined.
/// The store may grow in types. Fails for want of memory alone.
pub fn without_errors(alloc: Global, s: &mut TypeStore, a: &Ty) -> Result<TypeId, AllocError>
    requires defined { IsDefinedTy s.old a.now }
    requires union { (f : Store) → IsLater s.old f → is_some (words.members_in f a.now) ≡ true }
    ensures id { IfOk result (λ t. (f : Store) → IsLater s.new f → option_and_then (unions.without_errors f) (words.id_in a.now) ≡ Some t) }
    ensures defined { IfOk result (IsDefined s.new) }
    ensures grown { IsGrown s.old s.new }
{
    let _law = s.declarations();
    let Some(members) = members_in(s, a) else {
        unreachable!();
    };
    let left = values(alloc, s, members)?;
    joined_or_never(s, left)
}
