//! What one declaration says of others.

ghost use Rattle.std.specs.Prelude.{◌≡◌, false, IfOk};
ghost use Rattle.std.specs.List.{flat_map};
ghost use Rattle.hare_names.specs.Answers.{meaning_in};
ghost use Rattle.hare_depends.specs.Said as spec;

use crate::kinds::{kid, sort_of};
use crate::paths::{push_held, push_named};
use hare_depends::{Numbers, Said, Sort};
use hare_names::Names;
use hare_tree::Tree;
use std::alloc::{AllocError, Global};

/// What a declaration, one of so many, says of the others.
pub(crate) fn said_of(
    alloc: Global,
    count: usize,
    names: &Names,
    t: &Tree,
) -> Result<Said, AllocError>
    ensures { IfOk result (λ s. s ≡ spec.said_of count (meaning_in names.now) t.now) }
{
    let sort = sort_of(t);
    Ok(Said {
        sort,
        place: kid(t, 1).place,
        needed: needed_of(alloc, count, names, sort, t)?,
        named: named_of(alloc, count, names, sort, t)?,
        written: written_of(alloc, count, names, sort, t)?,
    })
}

/// What a declaration of this sort holds by value, spreads, or has in the lengths of its arrays.
fn needed_of(
    alloc: Global,
    count: usize,
    names: &Names,
    sort: Sort,
    t: &Tree,
) -> Result<Numbers, AllocError>
    ensures { IfOk result (λ ns. ns ≡ spec.numbers_at count (meaning_in names.now)
        (flat_map (spec.held_in false) (spec.held_by sort t.now))) }
{
    let mut numbers = Numbers::new(alloc);
    match sort {
        Sort::Type => push_held(&mut numbers, count, names, false, kid(t, 2))?,
        Sort::Function => {
            push_held(&mut numbers, count, names, false, kid(t, 2))?;
            push_held(&mut numbers, count, names, false, kid(t, 3))?;
        }
        Sort::Constant | Sort::Global => {}
    }
    Ok(numbers)
}

/// All that a declaration of this sort names, but for the body of a function.
fn named_of(
    alloc: Global,
    count: usize,
    names: &Names,
    sort: Sort,
    t: &Tree,
) -> Result<Numbers, AllocError>
    ensures { IfOk result (λ ns. ns ≡ spec.numbers_at count (meaning_in names.now) (flat_map spec.paths_in (spec.parts_by sort t.now))) }
{
    let mut numbers = Numbers::new(alloc);
    push_named(&mut numbers, count, names, kid(t, 2))?;
    match sort {
        Sort::Type => {}
        Sort::Function | Sort::Constant | Sort::Global => {
            push_named(&mut numbers, count, names, kid(t, 3))?;
        }
    }
    Ok(numbers)
}

/// All that the written type of a def or a global names.
fn written_of(
    alloc: Global,
    count: usize,
    names: &Names,
    sort: Sort,
    t: &Tree,
) -> Result<Numbers, AllocError>
    ensures { IfOk result (λ ns. ns ≡ spec.numbers_at count (meaning_in names.now) (flat_map spec.paths_in (spec.written_by sort t.now))) }
{
    let mut numbers = Numbers::new(alloc);
    match sort {
        Sort::Type | Sort::Function => {}
        Sort::Constant | Sort::Global => push_named(&mut numbers, count, names, kid(t, 2))?,
    }
    Ok(numbers)
}
