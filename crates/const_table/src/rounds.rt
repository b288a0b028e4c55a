//! The constants of a program worked out again and again, so that the time of that can be measured.

ghost use Rattle.std.specs.Prelude.{◌<◌, ◌-◌, ◌^◌};

use crate::asked::Measured;
use anyhow::{Result, bail};
use hare_const::{constant, is_coherent, is_settled};
use hare_tree::Kind;
use hare_typed::{Const, Program, Typed};
use hare_types::TypeStore;
use std::alloc::Global;
use std::mem::forget;

/// How many cells the constants of all globals and defs keep, which are worked out so many times; or how many of the values can be told,
/// which is all that is tested then.
pub(crate) fn in_rounds(
    alloc: Global,
    program: &Program,
    measured: Measured,
    rounds: u32,
) -> Result<u64> {
    let mut found = 0;
    for _ in 0..rounds {
        found = round(alloc, program, measured)?;
    }
    Ok(found)
}

/// The same, once.
fn round(alloc: Global, program: &Program, measured: Measured) -> Result<u64> {
    let mut found: u64 = 0;
    let mut own: u32 = 0;
    for i in 0..program.decls.len() {
        if own == u32::MAX {
            bail!("too many declarations");
        }
        if let Some(tree) = program.decls.get(i) {
            let more = found_of(alloc, &program.types, own, tree, measured)?;
            found = found.saturating_add(more);
        }
        own += 1;
    }
    Ok(found)
}

/// The same of one declaration; 0 where it is no global and no def.
fn found_of(
    alloc: Global,
    types: &TypeStore,
    own: u32,
    tree: &Typed,
    measured: Measured,
) -> Result<u64>
    requires { own < 2 ^ 32 - 1 }
{
    if !matches!(tree.kind, Kind::Def | Kind::GlobalLet | Kind::GlobalConst) {
        return Ok(0);
    }
    let Some(value) = tree.kids.get(3) else {
        return Ok(0);
    };
    match measured {
        Measured::Constants => cells_kept(alloc, types, own, value),
        Measured::Tests => told(alloc, types, own, value),
    }
}

/// How many cells the constant of a value keeps. It is kept itself, as a program that was checked keeps it, so that giving it up is not in
/// the time.
fn cells_kept(alloc: Global, types: &TypeStore, own: u32, value: &Typed) -> Result<u64>
    requires { own < 2 ^ 32 - 1 }
{
    let value = constant(alloc, types, own, value)?;
    let found = count_kept(&value);
    forget(value);
    Ok(found)
}

/// How many cells a constant keeps.
fn count_kept(value: &Const) -> u64 {
    match value {
        Const::Known { cells, .. } => cells.kept().len() as u64,
        Const::Absent => 0,
    }
}

/// 1 where the constant of a value can be told, and else 0.
fn told(alloc: Global, types: &TypeStore, own: u32, value: &Typed) -> Result<u64>
    requires { own < 2 ^ 32 - 1 }
{
    if !is_settled(types, value) {
        return Ok(0);
    }
    let coherent = is_coherent(alloc, types, own, value)?;
    Ok(u64::from(coherent))
}
