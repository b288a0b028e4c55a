//! Names that wait for the definitions of others.

ghost use Rattle.std.specs.Prelude.{◌≡◌, ◌≢◌, ◌<◌, ◌≤◌, ℕ, true, length, Some, None, IfOk, OnOk};
ghost use Rattle.hare_types.specs.Store.{sized_of, tree_at};
ghost use Rattle.hare_types.specs.Trees.{Array, Named};

use hare_types::{Extent, Row, Scalar, TypeId, TypeStore};
use std::alloc::{AllocError, Global};

/// The extent of the last of so many names in a fan, in a store of their own.
pub(crate) fn in_fan(alloc: Global, names: u32) -> Result<Option<Extent>, AllocError> {
    let mut store = TypeStore::new(alloc);
    fan(&mut store, names)
}

/// Defines so many names in a chain, each to hold the next, and then the last one: all wait until then. The answer is the extent of the
/// first.
pub(crate) fn in_chain(store: &mut TypeStore, names: u32) -> Result<Option<Extent>, AllocError>
    requires { (d : ℕ) → sized_of store.old d ≡ None }
{
    for n in 0..names {
        define_over(store, n, n + 1, 1)?;
    }
    define_last(store, names)?;
    extent_of(store, 0)
}

/// Defines so many names to hold one and the same other, and then that one: all wait until then. The answer is the extent of the last.
fn fan(store: &mut TypeStore, names: u32) -> Result<Option<Extent>, AllocError>
    requires { (d : ℕ) → sized_of store.old d ≡ None }
{
    for n in 0..names {
        define_over(store, n + 1, 0, u64::from(n) + 1)?;
    }
    define_last(store, 0)?;
    extent_of(store, names)
}

/// Declares a name, and defines it as an array of so many of another name, which is not declared yet.
fn define_over(store: &mut TypeStore, decl: u32, other: u32, items: u64) -> Result<(), AllocError>
    requires fresh { sized_of store.old decl ≡ None }
    requires unknown { sized_of store.old other ≡ None }
    requires apart { decl ≢ other }
    ensures { OnOk result ((d : ℕ) → d ≢ decl → sized_of store.new d ≡ sized_of store.old d) }
{
    store.declare(decl, true)?;
    let _name = store.intern(Row::Named(decl))?;
    let t = array_of(store, other, items)?;
    store.define(decl, t);
    Ok(())
}

/// The type of an array of so many of a name.
fn array_of(store: &mut TypeStore, decl: u32, items: u64) -> Result<TypeId, AllocError>
    ensures tree { IfOk result (λ t. tree_at store.new t ≡ Some (Array items (Named decl))) }
    ensures within { IfOk result (λ t. t < length store.new.rows) }
    ensures rest { OnOk result (store.new.declared ≡ store.old.declared) }
{
    let name = store.intern(Row::Named(decl))?;
    let t = store.intern(Row::Array(items, name))?;
    Ok(t)
}

/// Declares a name, and defines it as `int`.
fn define_last(store: &mut TypeStore, decl: u32) -> Result<(), AllocError>
    requires { sized_of store.old decl ≡ None }
{
    store.declare(decl, true)?;
    let int = store.intern(Row::Scalar(Scalar::Int))?;
    store.define(decl, int);
    Ok(())
}

/// The extent of a name.
fn extent_of(store: &mut TypeStore, decl: u32) -> Result<Option<Extent>, AllocError> {
    let name = store.intern(Row::Named(decl))?;
    Ok(store.extent(name))
}
