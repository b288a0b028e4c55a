//! Numbers of keys, in the order in which they are first met.

ghost use Rattle.std.specs.Prelude.{◌≡◌, ◌≤◌, ◌<◌, ◌++◌, ◌∷◌, [], length, IfOk, OnOk, OnErr};
ghost use Rattle.std.specs.List.{position_or_len};
ghost use Rattle.hare_types.specs.Numbering.{most};

use indexmap::IndexSet;
use std::alloc::AllocError;
use std::hash::{BuildHasher, Hash};

/// The greatest number of names, types or listed types of a store.
const MOST: usize = 4_294_967_295;

/// The place of a key, which is put last unless it is there. A set that holds 2^32 - 1 keys takes no other.
pub(crate) fn number<T: Eq + Hash + Drop, S: BuildHasher>(
    set: &mut IndexSet<T, S>,
    key: T,
) -> Result<u32, AllocError>
    requires { length set.old.keys ≤ most }
    ensures place { IfOk result (λ n. n ≡ position_or_len (T.eq key) set.old.keys) }
    ensures kept { IfOk result (λ n. n < length set.old.keys → set.new.keys ≡ set.old.keys) }
    ensures added { IfOk result (λ n. n ≡ length set.old.keys → set.new.keys ≡ set.old.keys ++ key ∷ []) }
    ensures within { IfOk result (λ n. n < length set.new.keys) }
    ensures few { length set.new.keys ≤ most }
    ensures err { OnErr result (set.new.keys ≡ set.old.keys) }
{
    if set.len() < MOST {
        let (place, _) = set.insert_full(key)?;
        return Ok(place as u32);
    }
    number_in_full(set, key)
}

/// The place of a key in a set that takes no more keys. It stands apart from `number`, so that the usual path is short.
#[inline(never)]
fn number_in_full<T: Eq + Hash + Drop, S: BuildHasher>(
    set: &IndexSet<T, S>,
    key: T,
) -> Result<u32, AllocError>
    requires { length set.now.keys ≤ most }
    ensures place { IfOk result (λ n. n ≡ position_or_len (T.eq key) set.now.keys) }
    ensures within { IfOk result (λ n. n < length set.now.keys) }
{
    match set.get_index_of(&key) {
        Some(place) => Ok(place as u32),
        None => Err(AllocError),
    }
}
