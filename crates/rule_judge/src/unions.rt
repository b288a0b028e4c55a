//! The union of a type with the refusal of memory.

ghost use Rattle.std.specs.Prelude.{◌≡◌, ◌<◌, ℕ, List, IfOk, IsSome, Some, length};
ghost use Rattle.std.specs.Prelude.{[], ◌∷◌, Contains, filter, not};
ghost use Rattle.hare_types.specs.ByIds.{row_at, members_at, is_error_at};
ghost use Rattle.hare_types.specs.Store.{Store};
ghost use Rattle.hare_types.specs.Later.{IsLater};
ghost use Rattle.hare_types.specs.Unions as unions;
ghost use Rattle.hare_types.specs.declared.row.Row.TheVariants as row;
ghost use Rattle.hare_rules.specs.Words as words;
ghost use Rattle.rule_judge.specs.Defined.{IsDefined, IsDefinedName, IsRefusable};
ghost use Rattle.rule_judge.specs.Grown.{IsGrown};

use crate::made::entered;
use hare_types::{Row, TypeId, TypeIds, TypeStore};
use std::alloc::{AllocError, Global};

/// The number of the declaration of `rt::nomem`.
const NOMEM: u32 = 4_294_967_295;

/// The type of the refusal of memory.
fn nomem(s: &mut TypeStore) -> Result<TypeId, AllocError>
    requires { IsDefinedName s.old words.nomem }
    ensures id { IfOk result (λ n. (f : Store) → IsLater s.new f → unions.id_of f (row.Named words.nomem) ≡ Some n) }
    ensures defined { IfOk result (IsDefined s.new) }
    ensures row { IfOk result (λ n. row_at s.new n ≡ Some (row.Named words.nomem)) }
    ensures grown { IsGrown s.old s.new }
{
    let _law = s.declarations();
    s.intern(Row::Named(NOMEM))
}

/// Two types by ascending ids.
fn both(alloc: Global, a: TypeId, b: TypeId) -> Result<TypeIds, AllocError>
    ensures { IfOk result (λ is. is ≡ unions.ascending (a ∷ b ∷ [])) }
{
    let mut members = TypeIds::new(alloc);
    if a.index() < b.index() {
        members.push(a)?;
        members.push(b)?;
    } else if a == b {
        members.push(a)?;
    } else {
        members.push(b)?;
        members.push(a)?;
    }
    Ok(members)
}

/// The union of a type with the refusal of memory.
///
/// The conditions are that the type is in the store, mentions no name that is not defined, and is itself neither `never` nor a union nor
/// that refusal; and that the store defines `rt::nomem`, by a type that mentions no name that is not defined. The store may grow in types.
/// Fails for want of memory alone.
pub fn refusable(alloc: Global, s: &mut TypeStore, t: TypeId) -> Result<TypeId, AllocError>
    requires kept { IsRefusable s.old t }
    requires nomem { IsDefinedName s.old words.nomem }
    ensures id { IfOk result (λ u. (f : Store) → IsLater s.new f → words.with_refusal f t ≡ Some u) }
    ensures defined { IfOk result (IsDefined s.new) }
    ensures grown { IsGrown s.old s.new }
{
    let _law = s.declarations();
    let n = nomem(s)?;
    let members = both(alloc, t, n)?;
    entered(s, Row::Union(members))
}
