//! Names that stand for one another in a chain, and what is told of each.

ghost use Rattle.std.specs.Prelude.{◌≡◌, ◌≢◌, ◌<◌, ◌≤◌, [], ◌∷◌, ℕ, true, length, slice_get, Some, None, IfOk, IfSome, OnOk};
ghost use Rattle.hare_types.specs.declared.row.Row.TheVariants.{Scalar as Word};
ghost use Rattle.hare_types.specs.declared.row.Scalar.TheVariants.{Int};
ghost use Rattle.hare_types.specs.ByValue.{has_size, held};
ghost use Rattle.hare_types.specs.Store.{sized_of, definition_of, tree_at};

use hare_types::{Row, Scalar, TypeId, TypeIds, TypeStore};
use std::alloc::{AllocError, Global};

/// Defines so many names in a chain, in a store without names. Of how many all is told then that is asked of them.
pub(crate) fn told_in_chain(
    alloc: Global,
    store: &mut TypeStore,
    names: u32,
) -> Result<u32, AllocError>
    requires { (d : ℕ) → sized_of store.old d ≡ None }
    ensures { IfOk result (λ n. n ≤ names) }
{
    chain(alloc, store, names)?;
    told(store, names)
}

/// Defines so many names, each as the next, from the first on, and the one behind them as `!(int | *int)`: all wait until then.
fn chain(alloc: Global, store: &mut TypeStore, names: u32) -> Result<(), AllocError>
    requires { (d : ℕ) → sized_of store.old d ≡ None }
{
    store.declare(0, true)?;
    for n in 0..names {
        define_as(store, n, n + 1)?;
    }
    define_last(alloc, store, names)
}

/// Declares a name, and defines another as it.
fn define_as(store: &mut TypeStore, decl: u32, other: u32) -> Result<(), AllocError>
    requires declared { sized_of store.old decl ≡ Some true }
    requires fresh { definition_of store.old decl ≡ None }
    requires unknown { sized_of store.old other ≡ None }
    ensures declared { OnOk result (sized_of store.new other ≡ Some true) }
    ensures undefined { OnOk result (definition_of store.new other ≡ None) }
    ensures others { OnOk result ((d : ℕ) → d ≢ other → sized_of store.new d ≡ sized_of store.old d) }
{
    let _name = store.intern(Row::Named(decl))?;
    store.declare(other, true)?;
    let meaning = store.intern(Row::Named(other))?;
    store.define(decl, meaning);
    Ok(())
}

/// Defines a name as `!(int | *int)`.
fn define_last(alloc: Global, store: &mut TypeStore, decl: u32) -> Result<(), AllocError>
    requires declared { sized_of store.old decl ≡ Some true }
    requires fresh { definition_of store.old decl ≡ None }
{
    let int = store.intern(Row::Scalar(Scalar::Int))?;
    let pair = pair_of(alloc, store, int)?;
    let meaning = marked(store, pair)?;
    store.define(decl, meaning);
    Ok(())
}

/// The type `(int | *int)`, where `int` is that type.
fn pair_of(alloc: Global, store: &mut TypeStore, int: TypeId) -> Result<TypeId, AllocError>
    requires { slice_get store.old.rows int ≡ Some (Word Int) }
    ensures held { IfOk result (λ t. IfSome (tree_at store.new t) (λ u. held u ≡ [])) }
    ensures sized { IfOk result (λ t. IfSome (tree_at store.new t) (λ u. has_size store.new u ≡ Some true)) }
    ensures within { IfOk result (λ t. t < length store.new.rows) }
    ensures rest { OnOk result (store.new.declared ≡ store.old.declared) }
{
    let pointer = store.intern(Row::Pointer(int))?;
    let members = two(alloc, int, pointer)?;
    let pair = store.intern(Row::Union(members))?;
    Ok(pair)
}

/// Two types, one behind the other.
fn two(alloc: Global, first: TypeId, second: TypeId) -> Result<TypeIds, AllocError>
    ensures { IfOk result (λ types. types ≡ first ∷ second ∷ []) }
{
    let mut types = TypeIds::new(alloc);
    types.push(first)?;
    types.push(second)?;
    Ok(types)
}

/// A type with an error mark before it.
fn marked(store: &mut TypeStore, inner: TypeId) -> Result<TypeId, AllocError>
    requires within { inner < length store.old.rows }
    requires held { IfSome (tree_at store.old inner) (λ u. held u ≡ []) }
    requires sized { IfSome (tree_at store.old inner) (λ u. has_size store.old u ≡ Some true) }
    ensures held { IfOk result (λ t. IfSome (tree_at store.new t) (λ u. held u ≡ [])) }
    ensures sized { IfOk result (λ t. IfSome (tree_at store.new t) (λ u. has_size store.new u ≡ Some true)) }
    ensures within { IfOk result (λ t. t < length store.new.rows) }
    ensures rest { OnOk result (store.new.declared ≡ store.old.declared) }
{
    let t = store.intern(Row::Error(inner))?;
    Ok(t)
}

/// Of how many of so many names all is told.
fn told(store: &mut TypeStore, names: u32) -> Result<u32, AllocError>
    ensures { IfOk result (λ n. n ≤ names) }
{
    let mut told = 0;
    for n in 0..names {
        let name = store.intern(Row::Named(n))?;
        if is_told(store, name) {
            told += 1;
        }
    }
    Ok(told)
}

/// Whether a type is told to be an error type, to have a size, and to have a union of two members as its base.
fn is_told(store: &TypeStore, t: TypeId) -> bool {
    store.is_error(t) && store.extent(t).is_some() && base_members(store, t) == 2
}

/// How many members the union has that is the base of a type; 0 where it is no union.
fn base_members(store: &TypeStore, t: TypeId) -> usize {
    let Some(base) = store.base(t) else {
        return 0;
    };
    match store.row(base) {
        Row::Union(members) => members.len(),
        _ => 0,
    }
}
