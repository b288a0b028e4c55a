//! Values of arrays.

ghost use Rattle.std.specs.Prelude.{◌≡◌, [], IfOk};
ghost use Rattle.hare_tree.specs.declared.kind.Kind.TheVariants as kind;
ghost use Rattle.hare_typed.specs.Typed.{kids_of};
ghost use Rattle.hare_typed.specs.Weight.{items_of};
ghost use Rattle.hare_typed.specs.ConstantForms.{repeats as times};
ghost use Rattle.hare_typed.specs.ConstantValues.{without_run};
ghost use Rattle.hare_const.specs.declared.outcome.Outcome.TheVariants.{Known};
ghost use Rattle.hare_const.specs.NodeValues as spec;

use crate::kids::{has_dots, kid_at};
use crate::measures::length_of_base;
use crate::outcome::Outcome;
use hare_typed::{Cells, Typed};
use hare_types::TypeStore;
use std::alloc::{AllocError, Global};

/// The items of an array as they are written: beside them stand a place for `...` and one for a comma.
fn items_in(t: &Typed) -> usize
    ensures { result ≡ items_of kind.Array (kids_of t.now) }
{
    t.kids.len().saturating_sub(2)
}

/// How often the last item stands once more: up to the length of the array, where `...` stands behind it.
fn repeats(s: &TypeStore, t: &Typed) -> u64
    ensures { result ≡ times (without_run s.now) t.now (items_of kind.Array (kids_of t.now)) }
{
    if !has_dots(t) {
        return 0;
    }
    length_of_base(s, t.ty).saturating_sub(items_in(t) as u64)
}

/// The items one behind another, and the last one again; `none` stands for an item that is not there.
fn laid(
    alloc: Global,
    s: &TypeStore,
    t: &Typed,
    kids: &[Outcome],
    none: &Outcome,
) -> Result<Outcome, AllocError>
    requires { none.now ≡ Known [] }
    ensures { IfOk result (λ o. o ≡ spec.kids_at 0 (items_of kind.Array (kids_of t.now)) kids.now
        (λ cs. Known (spec.array_value s.now t.now cs))) }
{
    let mut whole = Cells::new(alloc);
    let mut last = 0;
    for i in 0..items_in(t) {
        last = whole.len();
        match kid_at(kids, i, none) {
            Outcome::Known(cells) => whole.append(alloc, cells)?,
            Outcome::Aborts => return Ok(Outcome::Aborts),
            Outcome::Undefined => return Ok(Outcome::Undefined),
        }
    }
    whole.repeat(last, repeats(s, t) as usize)?;
    Ok(Outcome::Known(whole))
}

/// The value of an array: the cells of its items one behind another, and those of the last one again, which take the memory of one.
pub(crate) fn array_value(
    alloc: Global,
    s: &TypeStore,
    t: &Typed,
    kids: &[Outcome],
) -> Result<Outcome, AllocError>
    ensures { IfOk result (λ o. o ≡ spec.kids_at 0 (items_of kind.Array (kids_of t.now)) kids.now
        (λ cs. Known (spec.array_value s.now t.now cs))) }
{
    let none = Outcome::Known(Cells::new(alloc));
    laid(alloc, s, t, kids, &none)
}
