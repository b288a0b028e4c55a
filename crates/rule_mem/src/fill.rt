//! Which fields the values of a struct literal fill.

ghost use Rattle.std.specs.Prelude.{◌≡◌, ◌+◌, ◌^◌, ◌<◌, ◌==◌, ℕ, nat_eq, if◌then◌else◌, drop, length, IfOk, OnOk, Some};
ghost use Rattle.std.specs.List.{list_all};
ghost use Rattle.std.specs.Option.{unwrap_or};
ghost use Rattle.indexmap.specs.IndexMap.{get};
ghost use Rattle.hare_types.specs.Rows.{NamesBelow};
ghost use Rattle.hare_types.specs.Store.{Store};
ghost use Rattle.hare_types.specs.Later.{IsLater};
ghost use Rattle.hare_rules.specs.Aggregates as spec;
ghost use Rattle.rule_mem.specs.Filled.{spells, values_of, times_named};

use hare_typed::TypedKids;
use hare_types::{Field, TypeStore};
use indexmap::IndexMap;
use std::alloc::{AllocError, Global};

/// How often each name stands, by the numbers of the names.
type Counts = IndexMap<u32, usize>;

/// How often a name stands.
fn count(named: &Counts, name: u32) -> usize
    ensures { result ≡ unwrap_or (get nat_eq named.now name) 0 }
{
    match named.get(&name) {
        Some(n) => *n,
        None => 0,
    }
}

/// Counts a name once more.
fn count_one(named: &mut Counts, name: u32) -> Result<(), AllocError>
    requires { unwrap_or (get nat_eq named.old name) 0 + 1 < 2 ^ 64 }
    ensures { OnOk result ((n : ℕ) → unwrap_or (get nat_eq named.new n) 0 ≡ unwrap_or (get nat_eq named.old n) 0 +
        (if nat_eq name n then 1 else 0)) }
{
    let once_more = count(named, name) + 1;
    named.insert(name, once_more)?;
    Ok(())
}

/// Counts the name that is spelled so, where the store has it.
fn count_spelled(named: &mut Counts, s: &TypeStore, text: &[u8]) -> Result<(), AllocError>
    requires { (n : ℕ) → unwrap_or (get nat_eq named.old n) 0 + 1 < 2 ^ 64 }
    ensures { OnOk result ((n : ℕ) → unwrap_or (get nat_eq named.new n) 0 ≡ unwrap_or (get nat_eq named.old n) 0 +
        (if spells s.now n text.now then 1 else 0)) }
{
    let _law = s.declarations();
    match s.find_name(text) {
        Some(name) => {
            count_one(named, name)?;
            Ok(())
        }
        None => Ok(()),
    }
}

/// How often each name stands before the values of a struct literal.
fn names_counted(alloc: Global, s: &TypeStore, kids: &TypedKids) -> Result<Counts, AllocError>
    ensures { IfOk result (λ m. (n : ℕ) → unwrap_or (get nat_eq m n) 0 ≡ times_named s.now n (values_of kids.now)) }
{
    let mut named: Counts = IndexMap::new(alloc);
    for i in 1..kids.len().saturating_sub(1) {
        let Some(value) = kids.get(i) else {
            return Ok(named);
        };
        count_spelled(&mut named, s, value.text.bytes())?;
    }
    Ok(named)
}

/// Whether the name of each field stands once.
fn each_once(named: &Counts, fields: &[Field]) -> bool
    ensures { result ≡ list_all (λ f. unwrap_or (get nat_eq named.now f.name) 0 == 1) fields.now }
{
    fields.iter().all(|f| count(named, f.name) == 1)
}

/// Whether each field of a struct has just one of the values of a literal, and there is no other value. The time is that of the fields and
/// of the values.
pub(crate) fn is_filled(
    alloc: Global,
    s: &TypeStore,
    fields: &[Field],
    kids: &TypedKids,
) -> Result<bool, AllocError>
    requires { NamesBelow (length s.now.names) fields.now }
    ensures { IfOk result (λ b. (f : Store) → IsLater s.now f → b ≡ spec.fill f (Some fields.now) (values_of kids.now)) }
{
    let _law = s.declarations();
    if kids.len().saturating_sub(2) != fields.len() {
        return Ok(false);
    }
    let named = names_counted(alloc, s, kids)?;
    Ok(each_once(&named, fields))
}
