//! The walk over the tree of a declaration, which notes what each path means, or which rule it violates, and the violations at equal names
//! of parameters and fields. Each tree is read once.
//!
//! The walk goes as deep as the tree does.

ghost use Rattle.std.specs.Prelude.{◌≡◌, ◌<◌, ◌+◌, ◌^◌, ◌++◌, fold, IfOk, OnOk};
ghost use Rattle.hare_tree.specs.Node.{nodes_of};
ghost use Rattle.hare_tree.specs.Judged.{nodes_from};
ghost use Rattle.hare_directory.specs.Seen.{tables_of};
ghost use Rattle.hare_modules.specs.Order.{earlier};
ghost use Rattle.hare_names.specs.Scopes as scopes;
ghost use Rattle.hare_names.specs.Spots as spec;
ghost use Rattle.hare_names.specs.Doubled as names;

use crate::doubled::{Doubled, find_doubled};
use crate::kinds::{is_binding, is_for_each, is_idle_kind, is_params, is_type_path, is_value_path};
use crate::locals::Locals;
use crate::notes::Notes;
use crate::verdict::{Verdict, judge};
use hare_directory::Directory;
use hare_modules::earlier;
use hare_tree::{Fault, Kids, Place, Tree};
use std::alloc::AllocError;

/// A file of a program, by its number, with what modules declare and files import.
#[derive(Clone, Copy)]
pub struct Setting<'a> {
    pub directory: &'a Directory<'a>,
    pub file: usize,
}

/// Notes the paths of a tree, before which so many bindings of its declaration stand. The answer is how many stand behind it; then what it
/// binds is visible. Together they are fewer than 2^32. `doubled` takes in the violations at equal names of parameters or fields in the
/// tree. It fails for want of memory alone.
#[cycle(walk)]
pub fn walk<'a>(
    setting: Setting<'_>,
    locals: &mut Locals<'a>,
    notes: &mut Notes,
    doubled: &mut Doubled<'a>,
    t: &'a Tree,
    before: u32,
) -> Result<u32, AllocError>
    requires { before + scopes.bindings_in t.now < 2 ^ 32 }
    ensures count { IfOk result (λ n. n ≡ before + scopes.bindings_in t.now) }
    ensures locals { OnOk result (locals.new ≡ scopes.bound_by before t.now ++ locals.old) }
    ensures notes { OnOk result (notes.new ≡ fold (spec.noted (tables_of setting.entry.directory.now) setting.entry.file) notes.old
        (spec.spots_in before locals.old t.now)) }
    ensures doubled { OnOk result (doubled.new.first ≡ fold earlier doubled.old.first (names.doubled_in t.now)) }
{
    note(setting, locals, notes, t)?;
    find_doubled(doubled, t)?;
    let binds = is_binding(t.kind);
    let first = if binds { before + 1 } else { before };
    let mark = locals.mark();
    let behind = if is_for_each(t.kind) {
        walk_loop(setting, locals, notes, doubled, &t.kids, first)?
    } else {
        walk_kids(setting, locals, notes, doubled, &t.kids, 0, first)?
    };
    if binds {
        locals.back_to(mark);
        locals.declare(t.text.bytes(), before)?;
    } else if !is_params(t.kind) {
        locals.back_to(mark);
    }
    Ok(behind)
}

/// Notes the paths of kids from one on, before which so many bindings stand. What they bind stays visible.
#[cycle(walk)]
fn walk_kids<'a>(
    setting: Setting<'_>,
    locals: &mut Locals<'a>,
    notes: &mut Notes,
    doubled: &mut Doubled<'a>,
    kids: &'a Kids,
    from: usize,
    before: u32,
) -> Result<u32, AllocError>
    requires { before + scopes.bindings_among (nodes_from from (nodes_of kids.now)) < 2 ^ 32 }
    ensures count { IfOk result (λ n. n ≡ before + scopes.bindings_among (nodes_from from (nodes_of kids.now))) }
    ensures locals { OnOk result (locals.new ≡ scopes.bound_among before (nodes_from from (nodes_of kids.now)) ++ locals.old) }
    ensures notes { OnOk result (notes.new ≡ fold (spec.noted (tables_of setting.entry.directory.now) setting.entry.file) notes.old
        (spec.spots_among before locals.old (nodes_from from (nodes_of kids.now)))) }
    ensures doubled { OnOk result (doubled.new.first ≡ fold earlier doubled.old.first
        (names.doubled_among (nodes_from from (nodes_of kids.now)))) }
{
    let mut behind = before;
    for i in from..kids.len() {
        let Some(kid) = kids.get(i) else {
            return Ok(behind);
        };
        if is_idle(kid) {
            continue;
        }
        behind = walk(setting, locals, notes, doubled, kid, behind)?;
    }
    Ok(behind)
}

/// Whether a tree has no kids and is neither a path nor a binding.
fn is_idle(t: &Tree) -> bool
    ensures { result ≡ spec.is_idle t.now }
{
    if t.kids.len() != 0 {
        return false;
    }
    is_idle_kind(t.kind)
}

/// Notes the paths of the kids of a `for` over items: a binding, what is gone over, where the binding is not visible, and the body.
#[cycle(walk)]
fn walk_loop<'a>(
    setting: Setting<'_>,
    locals: &mut Locals<'a>,
    notes: &mut Notes,
    doubled: &mut Doubled<'a>,
    kids: &'a Kids,
    before: u32,
) -> Result<u32, AllocError>
    requires { before + scopes.bindings_among (nodes_of kids.now) < 2 ^ 32 }
    ensures count { IfOk result (λ n. n ≡ before + scopes.bindings_among (nodes_of kids.now)) }
    ensures locals { OnOk result (locals.new ≡ locals.old) }
    ensures notes { OnOk result (notes.new ≡ fold (spec.noted (tables_of setting.entry.directory.now) setting.entry.file) notes.old
        (spec.spots_of_loop before locals.old (nodes_of kids.now))) }
    ensures doubled { OnOk result (doubled.new.first ≡ fold earlier doubled.old.first (names.doubled_among (nodes_of kids.now))) }
{
    let mark = locals.mark();
    let Some(binding) = kids.get(0) else {
        return Ok(before);
    };
    let behind = walk(setting, locals, notes, doubled, binding, before)?;
    locals.back_to(mark);
    let Some(over) = kids.get(1) else {
        return Ok(behind);
    };
    let behind = walk(setting, locals, notes, doubled, over, behind)?;
    locals.back_to(mark);
    bind_itself(locals, binding, before)?;
    let behind = walk_kids(setting, locals, notes, doubled, kids, 2, behind)?;
    locals.back_to(mark);
    Ok(behind)
}

/// Makes the local visible that a tree itself binds, if it does.
fn bind_itself<'a>(locals: &mut Locals<'a>, t: &'a Tree, before: u32) -> Result<(), AllocError>
    ensures { OnOk result (locals.new ≡ scopes.bound_itself before t.now ++ locals.old) }
{
    if is_binding(t.kind) {
        locals.declare(t.text.bytes(), before)?;
    }
    Ok(())
}

/// Notes a tree, if it is a path.
fn note(
    setting: Setting<'_>,
    locals: &Locals<'_>,
    notes: &mut Notes,
    t: &Tree,
) -> Result<(), AllocError>
    ensures { OnOk result (notes.new ≡ fold (spec.noted (tables_of setting.entry.directory.now) setting.entry.file) notes.old
        (spec.spot_of t.now locals.now)) }
{
    let is_type = is_type_path(t.kind);
    if is_type || is_value_path(t.kind) {
        let verdict = judge(
            setting.directory,
            setting.file,
            is_type,
            locals,
            t.text.bytes(),
        );
        return note_as(notes, t.place, verdict);
    }
    Ok(())
}

/// Notes what is said of the path at a place.
fn note_as(notes: &mut Notes, place: Place, verdict: Verdict) -> Result<(), AllocError>
    ensures { OnOk result (notes.new ≡ spec.noted_as notes.old place verdict) }
{
    match verdict {
        Verdict::Means(meaning) => notes.places.put(place, meaning)?,
        Verdict::Fails(number) => notes.first = earlier(notes.first, Fault { number, place }),
    }
    Ok(())
}
