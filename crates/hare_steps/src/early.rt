//! The globals whose written types are judged before a value that names them.

ghost use Rattle.std.specs.Prelude.{◌≡◌, IfOk};
ghost use Rattle.hare_depends.specs.Dependence.{is_at};
ghost use Rattle.hare_depends.specs.Sorts as sorts;
ghost use Rattle.hare_steps.specs.Taken as spec;

use crate::judged::is_judged;
use hare_depends::{Said, Sort};
use std::alloc::{AllocError, Global};
use std::collections::BTreeSet;

/// The globals with a written type that the value of a declaration names and that have not been judged, in the order of the source.
pub(crate) fn early_of(
    alloc: Global,
    saids: &[Said],
    judged: &[bool],
    said: &Said,
) -> Result<Vec<u32>, AllocError>
    ensures { IfOk result (λ gs. gs.items ≡ spec.early_of saids.now judged.now said.now) }
{
    if !has_value(said.sort) {
        return Ok(Vec::new(alloc));
    }
    let globals = globals_of(alloc, saids, said)?;
    globals
        .iter()
        .copied()
        .filter(|global| !is_judged(judged, *global))
        .collect(alloc)
}

/// The globals with a written type that the value of a declaration names.
fn globals_of(alloc: Global, saids: &[Said], said: &Said) -> Result<BTreeSet<u32>, AllocError>
    ensures { IfOk result (λ gs. gs.keys ≡ spec.globals_of saids.now said.now) }
{
    let named = said.named.as_slice();
    let mut globals = BTreeSet::new(alloc);
    for i in said.written.len()..named.len() {
        let number = named[i];
        if is_global_at(saids, number) {
            globals.insert(number)?;
        }
    }
    Ok(globals)
}

/// Whether a declaration is a global with a written type.
fn is_global_at(saids: &[Said], decl: u32) -> bool
    ensures { result ≡ is_at sorts.is_global saids.now decl }
{
    match saids.get(decl as usize) {
        Some(said) => matches!(said.sort, Sort::Global),
        None => false,
    }
}

/// Whether a declaration has a value, which is looked at before bodies are.
pub(crate) fn has_value(sort: Sort) -> bool
    ensures { result ≡ sorts.has_value sort }
{
    match sort {
        Sort::Type | Sort::Function => false,
        Sort::Constant | Sort::Global => true,
    }
}
