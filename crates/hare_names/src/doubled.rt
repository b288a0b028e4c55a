//! Equal names of parameters and of fields.

ghost use Rattle.std.specs.Prelude.{◌≡◌, fold, IfOk, OnOk};
ghost use Rattle.hare_tree.specs.Node.{nodes_of};
ghost use Rattle.hare_modules.specs.Order.{earlier};
ghost use Rattle.hare_names.specs.Doubled as spec;
ghost use Rattle.hare_names.specs.Doubling as doubling;

use crate::kinds::{has_names, is_named};
use hare_modules::{Table, earlier};
use hare_tree::{Fault, Kids, Tree};
use std::alloc::{AllocError, Global};

/// Of the violations that were found so far the one that counts first, which may be at equal names of parameters or fields.
#[derive(Drop)]
pub struct Doubled<'a> {
    /// The fault that counts first, if there is one.
    pub first: Option<Fault>,
    /// The names of one list of parameters or fields. It is one table for all lists, so that its memory is taken once.
    pub names: Table<'a, ()>,
}

/// So far this fault counts first, if there is one. Takes no memory.
pub fn doubled_from<'a>(alloc: Global, first: Option<Fault>) -> Doubled<'a>
    ensures { result.first ≡ first }
{
    Doubled {
        first,
        names: Table::new(alloc),
    }
}

/// Finds the violations at the later of equal names of the parameters or fields that are kids of a tree. It fails for want of memory alone.
pub fn find_doubled<'a>(doubled: &mut Doubled<'a>, t: &'a Tree) -> Result<(), AllocError>
    ensures { OnOk result (doubled.new.first ≡ fold earlier doubled.old.first (doubling.doubled_own t.now)) }
{
    if has_names(t.kind) {
        doubled.first = doubled_kids(&mut doubled.names, &t.kids, doubled.first)?;
    }
    Ok(())
}

/// The fault that counts first of one that was found before, if there was one, and of those at the later of equal names of the parameters
/// or fields that are kids of a tree. The table is for their names.
fn doubled_kids<'a>(
    names: &mut Table<'a, ()>,
    kids: &'a Kids,
    found: Option<Fault>,
) -> Result<Option<Fault>, AllocError>
    ensures { IfOk result (λ f. f ≡ fold earlier found (spec.doubled_kids (nodes_of kids.now))) }
{
    names.clear();
    let mut first = found;
    for i in 0..kids.len() {
        let Some(kid) = kids.get(i) else {
            return Ok(first);
        };
        first = take_name(names, kid, first)?;
    }
    Ok(first)
}

/// Takes the name of a kid, if it is a parameter or a field. The answer is the fault that counts first of one that was found before, if
/// there was one, and of that of a name that is taken already.
fn take_name<'a>(
    names: &mut Table<'a, ()>,
    kid: &'a Tree,
    found: Option<Fault>,
) -> Result<Option<Fault>, AllocError>
    ensures first { IfOk result (λ f. f ≡ doubling.first_with names.old kid.now found) }
    ensures names { OnOk result (names.new ≡ doubling.names_with names.old kid.now) }
{
    if !is_named(kid.kind) {
        return Ok(found);
    }
    if names.enter(kid.text.bytes(), ())? {
        return Ok(earlier(found, doubled_fault(kid)));
    }
    Ok(found)
}

/// The fault of a name that stands before already.
fn doubled_fault(t: &Tree) -> Fault
    ensures { result ≡ spec.doubled_fault t.now }
{
    Fault {
        number: 12,
        place: t.place,
    }
}
