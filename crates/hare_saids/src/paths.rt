//! The declarations that the paths in a tree mean.

ghost use Rattle.std.specs.Prelude.{◌≡◌, ◌++◌, [], ◌∷◌, OnOk, nat_lt, if◌then◌else◌};
ghost use Rattle.hare_tree.specs.Node.{nodes_of};
ghost use Rattle.hare_names.specs.Answers.{meaning_in};
ghost use Rattle.hare_depends.specs.Said as spec;

use crate::kinds::{is_behind, is_held, is_path};
use hare_depends::Numbers;
use hare_names::Names;
use hare_tree::{Kids, Meaning, Place, Tree};
use std::alloc::AllocError;

/// Puts the declaration, one of so many, behind the others that the path at a place means, if it means one and is asked for.
fn push_meant(
    numbers: &mut Numbers,
    count: usize,
    names: &Names,
    is_asked: bool,
    place: Place,
) -> Result<(), AllocError>
    ensures { OnOk result (numbers.new ≡ numbers.old ++ spec.numbers_at count (meaning_in names.now)
        (if is_asked then place ∷ [] else [])) }
{
    if is_asked {
        if let Meaning::Decl(number) = names.meaning(place) {
            return push_within(numbers, count, number);
        }
    }
    Ok(())
}

/// Puts a number behind others, if it is that of one of so many declarations.
fn push_within(numbers: &mut Numbers, count: usize, number: u32) -> Result<(), AllocError>
    ensures { OnOk result (numbers.new ≡ numbers.old ++ (if nat_lt number count then number ∷ [] else [])) }
{
    if (number as usize) < count {
        numbers.push(number)?;
    }
    Ok(())
}

/// Puts the declarations that the paths in a tree mean behind others.
#[cycle(named)]
pub(crate) fn push_named(
    numbers: &mut Numbers,
    count: usize,
    names: &Names,
    t: &Tree,
) -> Result<(), AllocError>
    ensures { OnOk result (numbers.new ≡ numbers.old ++ spec.numbers_at count (meaning_in names.now) (spec.paths_in t.now)) }
{
    push_meant(numbers, count, names, is_path(t.kind), t.place)?;
    push_named_among(numbers, count, names, &t.kids)
}

/// The same of some trees.
#[cycle(named)]
fn push_named_among(
    numbers: &mut Numbers,
    count: usize,
    names: &Names,
    kids: &Kids,
) -> Result<(), AllocError>
    ensures { OnOk result (numbers.new ≡ numbers.old ++ spec.numbers_at count (meaning_in names.now)
        (spec.paths_among (nodes_of kids.now))) }
{
    for i in 0..kids.len() {
        let Some(t) = kids.get(i) else {
            return Ok(());
        };
        push_named(numbers, count, names, t)?;
    }
    Ok(())
}

/// Puts the declarations behind others that a tree of a type, which stands behind a pointer or slice or not, holds by value or spreads, or
/// has in the lengths of its arrays.
#[cycle(held)]
pub(crate) fn push_held(
    numbers: &mut Numbers,
    count: usize,
    names: &Names,
    behind: bool,
    t: &Tree,
) -> Result<(), AllocError>
    ensures { OnOk result (numbers.new ≡ numbers.old ++ spec.numbers_at count (meaning_in names.now) (spec.held_in behind t.now)) }
{
    push_meant(numbers, count, names, is_held(t.kind, behind), t.place)?;
    push_held_among(numbers, count, names, is_behind(t.kind, behind), &t.kids)
}

/// The same of some trees.
#[cycle(held)]
fn push_held_among(
    numbers: &mut Numbers,
    count: usize,
    names: &Names,
    behind: bool,
    kids: &Kids,
) -> Result<(), AllocError>
    ensures { OnOk result (numbers.new ≡ numbers.old ++ spec.numbers_at count (meaning_in names.now)
        (spec.held_among behind (nodes_of kids.now))) }
{
    for i in 0..kids.len() {
        let Some(t) = kids.get(i) else {
            return Ok(());
        };
        push_held(numbers, count, names, behind, t)?;
    }
    Ok(())
}
