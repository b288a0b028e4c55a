//! Types that rules make of others.

ghost use Rattle.std.specs.Prelude.{◌≡◌, ℕ, IfOk, Some, Contains};
ghost use Rattle.hare_types.specs.Store.{Store};
ghost use Rattle.hare_types.specs.Later.{IsLater};
ghost use Rattle.hare_types.specs.Rows.{IsReduced};
ghost use Rattle.hare_types.specs.Unions.{id_of};
ghost use Rattle.hare_types.specs.declared.row.Row.TheVariants as row;
ghost use Rattle.hare_rules.specs.Words as words;
ghost use Rattle.rule_judge.specs.Defined.{IsDefined, HoldsDefined};
ghost use Rattle.rule_judge.specs.Grown.{IsGrown};

use hare_types::{Row, Scalar, TypeId, TypeIds, TypeStore};
use std::alloc::AllocError;

/// The type with this row, which is no name.
pub(crate) fn entered(s: &mut TypeStore, r: Row) -> Result<TypeId, AllocError>
    requires held { HoldsDefined s.old r }
    requires named { (d : ℕ) → ¬ (r ≡ row.Named d) }
    requires reduced { IsReduced s.old.rows r }
    ensures id { IfOk result (λ t. (f : Store) → IsLater s.new f → id_of f r ≡ Some t) }
    ensures defined { IfOk result (IsDefined s.new) }
    ensures grown { IsGrown s.old s.new }
{
    let _law = s.declarations();
    s.intern(r)
}

/// The type that is written by one word.
pub fn word(s: &mut TypeStore, k: Scalar) -> Result<TypeId, AllocError>
    ensures id { IfOk result (λ t. (f : Store) → IsLater s.new f → words.word_id f k ≡ Some t) }
    ensures defined { IfOk result (IsDefined s.new) }
    ensures grown { IsGrown s.old s.new }
{
    entered(s, Row::Scalar(k))
}

/// The type of a pointer to the type that is never null. The condition is that `t` is in the store, and mentions no name that is not
/// defined. The store may grow in types. Fails for want of memory alone.
pub fn pointer_to(s: &mut TypeStore, t: TypeId) -> Result<TypeId, AllocError>
    requires { IsDefined s.old t }
    ensures id { IfOk result (λ p. (f : Store) → IsLater s.new f → id_of f (row.Pointer t) ≡ Some p) }
    ensures defined { IfOk result (IsDefined s.new) }
    ensures grown { IsGrown s.old s.new }
{
    entered(s, Row::Pointer(t))
}

/// The type of a slice of the type. The condition is that `t` is in the store, and mentions no name that is not defined. The store may grow
/// in types. Fails for want of memory alone.
pub fn slice_of(s: &mut TypeStore, t: TypeId) -> Result<TypeId, AllocError>
    requires { IsDefined s.old t }
    ensures id { IfOk result (λ p. (f : Store) → IsLater s.new f → id_of f (row.Slice t) ≡ Some p) }
    ensures defined { IfOk result (IsDefined s.new) }
    ensures grown { IsGrown s.old s.new }
{
    entered(s, Row::Slice(t))
}

/// The type of an array of so many elements of the type. The condition is that `t` is in the store, and mentions no name that is not
/// defined. The store may grow in types. Fails for want of memory alone.
pub fn array_of(s: &mut TypeStore, count: u64, t: TypeId) -> Result<TypeId, AllocError>
    requires { IsDefined s.old t }
    ensures id { IfOk result (λ p. (f : Store) → IsLater s.new f → id_of f (row.Array count t) ≡ Some p) }
    ensures defined { IfOk result (IsDefined s.new) }
    ensures grown { IsGrown s.old s.new }
{
    entered(s, Row::Array(count, t))
}

/// The type of a tuple of these components. The condition is that each of these is in the store, and mentions no name that is not defined.
/// The store may grow in types. Fails for want of memory alone.
pub fn tuple_of(s: &mut TypeStore, components: TypeIds) -> Result<TypeId, AllocError>
    requires { (i : ℕ) → Contains components i → IsDefined s.old i }
    ensures id { IfOk result (λ p. (f : Store) → IsLater s.new f → id_of f (row.Tuple components) ≡ Some p) }
    ensures defined { IfOk result (IsDefined s.new) }
    ensures grown { IsGrown s.old s.new }
{
    entered(s, Row::Tuple(components))
}
