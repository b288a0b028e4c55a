//! Takes ROWS types into a store and asks for each again, so that the time of the store can be measured. By `type_bench ROWS names` it
//! defines ROWS names in place of that, while all wait for one; by `type_bench ROWS fields` it takes in a struct of ROWS fields, and looks
//! for each; by `type_bench ROWS aliases` it defines ROWS names, each as the next, and asks each what it is.
#![tactic(auto)]

ghost use Rattle.std.specs.Prelude.{◌≡◌, ◌<◌, ℕ, None, length, IfOk};
ghost use Rattle.hare_types.specs.Store.{sized_of};

mod aliases;
mod fields;
mod names;

use anyhow::{Context, Result, bail};
use hare_types::{Extent, Row, Scalar, TypeId, TypeStore};
use std::alloc::AllocError;
use std::env::{self, Args};

const USAGE: &str = "usage: type_bench ROWS [names|fields|aliases]";

/// What is measured.
#[derive(Clone, Copy)]
enum Mode {
    /// Types that are asked for again.
    Rows,
    Names,
    Fields,
    Aliases,
}

fn main(rt: HostRuntime) -> Result<()> {
    let (rows, mode) = asked(&rt)?;
    let mut store = TypeStore::new(rt.alloc());
    measure(&rt, &mut store, rows, mode)
}

/// What the command line asks for: so many rows, and what is measured.
fn asked(rt: &HostRuntime) -> Result<(u32, Mode)> {
    let mut words = env::args(rt)?;
    read(&mut words)
}

/// The same, by the words of the command line.
fn read(words: &mut Args) -> Result<(u32, Mode)> {
    let rows = number(words.nth(1))?;
    let mode = mode_of(words.next())?;
    Ok((rows, mode))
}

/// How many rows a word asks for.
fn number(word: Option<String>) -> Result<u32> {
    let word = word.context(USAGE)?;
    word.as_str()
        .parse::<u32>()
        .context("ROWS is a number below 2^32")
}

/// What a word asks to measure.
fn mode_of(word: Option<String>) -> Result<Mode> {
    let Some(word) = word else {
        return Ok(Mode::Rows);
    };
    match word.as_str() {
        "names" => Ok(Mode::Names),
        "fields" => Ok(Mode::Fields),
        "aliases" => Ok(Mode::Aliases),
        _ => bail!("{USAGE}"),
    }
}

/// Measures with a store that holds nothing. It stands in `main` alone, since each function that may drop a store is proved to drop it.
fn measure(rt: &HostRuntime, store: &mut TypeStore, rows: u32, mode: Mode) -> Result<()>
    requires { (d : ℕ) → sized_of store.old d ≡ None }
{
    match mode {
        Mode::Rows => ask_again(rt, store, rows),
        Mode::Names => define(rt, store, rows),
        Mode::Fields => look_up(rt, store, rows),
        Mode::Aliases => follow(rt, store, rows),
    }
}

/// Takes so many types in, and asks for each again.
fn ask_again(rt: &HostRuntime, store: &mut TypeStore, rows: u32) -> Result<()> {
    let last = chain(store, rows)?;
    let again = chain(store, rows)?;
    let (last, again) = (last.index(), again.index());
    println!(rt; "rows {rows}, last id {last}, asked again {again}")?;
    Ok(())
}

/// Defines so many names in a chain, and so many in a fan, in a store of its own.
fn define(rt: &HostRuntime, store: &mut TypeStore, rows: u32) -> Result<()>
    requires { (d : ℕ) → sized_of store.old d ≡ None }
{
    let first = bytes(names::in_chain(store, rows)?);
    let last = bytes(names::in_fan(rt.alloc(), rows)?);
    println!(rt;
        "names {rows}, the first of the chain takes {first} bytes, the last of the fan {last}"
    )?;
    Ok(())
}

/// Takes in a struct of so many fields, and looks for each by its name.
fn look_up(rt: &HostRuntime, store: &mut TypeStore, rows: u32) -> Result<()> {
    let t = fields::structure(rt.alloc(), store, rows)?;
    let found = fields::found(store, t, rows);
    println!(rt; "fields {rows}, found {found}")?;
    Ok(())
}

/// Defines so many names, each as the next, and asks each what it is.
fn follow(rt: &HostRuntime, store: &mut TypeStore, rows: u32) -> Result<()>
    requires { (d : ℕ) → sized_of store.old d ≡ None }
{
    let told = aliases::told_in_chain(rt.alloc(), store, rows)?;
    println!(rt; "names {rows}, all is told of {told}")?;
    Ok(())
}

/// The bytes of a type of which an extent is known, and else 0.
fn bytes(extent: Option<Extent>) -> u64 {
    match extent {
        Some(x) => x.size,
        None => 0,
    }
}

/// The last of so many types over `int`, of which each is over the one before: pointers and arrays in turn, so that no two are equal. The
/// ids of new types follow one another, so that the last one tells how many there are.
fn chain(store: &mut TypeStore, rows: u32) -> Result<TypeId, AllocError>
    ensures { IfOk result (λ t. t < length store.new.rows) }
{
    let mut last = int(store)?;
    for n in 0..rows {
        last = over(store, last, n)?;
    }
    Ok(last)
}

/// The type `int`.
fn int(store: &mut TypeStore) -> Result<TypeId, AllocError>
    ensures { IfOk result (λ t. t < length store.new.rows) }
{
    store.intern(Row::Scalar(Scalar::Int))
}

/// A type over another: a pointer to it, or an array of so many of it.
fn over(store: &mut TypeStore, below: TypeId, n: u32) -> Result<TypeId, AllocError>
    requires { below < length store.old.rows }
    ensures { IfOk result (λ t. t < length store.new.rows) }
{
    if n % 2 == 0 {
        store.intern(Row::Pointer(below))
    } else {
        store.intern(Row::Array(u64::from(n), below))
    }
}
