//! Members of unions, and where their payloads begin.

ghost use Rattle.std.specs.Prelude.{◌<◌, length, IsSome, IfSome, IsTrue};
ghost use Rattle.hare_types.specs.Assign.{IsIn};
ghost use Rattle.hare_types.specs.ByIds.{members_at};
ghost use Rattle.hare_types.specs.Sound.{IsStore};

use anyhow::{Result, bail, ensure};
use hare_assign::chosen_member;
use hare_layout::{is_small, payload_of};
use hare_types::{Coercion, Row, Ty, TypeId, TypeStore};
use spelled_types::{Table, type_in};

/// Whether the type is a union, once names and error marks are followed.
pub(crate) fn is_union_type(store: &TypeStore, t: TypeId) -> bool
    requires { t < length store.now.rows }
    ensures union { IsTrue result → IsSome (members_at store.now t) }
    ensures sound { IsStore store.now }
{
    match store.base(t) {
        Some(base) => match store.row(base) {
            Row::Union(_) => true,
            _ => false,
        },
        None => false,
    }
}

/// How a value goes to the member of a union that it becomes; `None` where it is not assigned to the union, or keeps the member that it
/// has.
pub(crate) fn becomes_member(store: &TypeStore, to: TypeId, from: Ty) -> Option<Coercion>
    requires to { to < length store.now.rows }
    requires from { IsIn store.now from }
    ensures { IfSome result (λ c. IsIn store.now c.to) }
{
    if !is_union_type(store, to) {
        return None;
    }
    chosen_member(store, to, from)
}

/// Where the payload of a union begins.
pub(crate) fn payload(table: &mut Table, skipped: usize, spelling: &str) -> Result<String> {
    let t = type_in(table, skipped, spelling)?;
    ensure!(is_union_type(&table.store, t), "no union");
    if !is_small(&table.store, t) {
        bail!("too large");
    }
    let payload = payload_of(&table.store, t);
    Ok(format!(in table.alloc; "payload at {payload}")?)
}
