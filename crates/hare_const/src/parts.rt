//! Values of tuples and structs, and where their parts begin.

ghost use Rattle.std.specs.Prelude.{◌≡◌, ◌≤◌, [], length, position, bytes_eq, option_and_then, unwrap_or, IfOk};
ghost use Rattle.std.specs.List.{All};
ghost use Rattle.hare_tree.specs.declared.kind.Kind.TheVariants as kind;
ghost use Rattle.hare_types.specs.declared.coercion.Ty.TheVariants as ty;
ghost use Rattle.hare_types.specs.ByIds.{field_at};
ghost use Rattle.hare_typed.specs.Typed.{head_of, kids_of};
ghost use Rattle.hare_typed.specs.Weight.{items_of};
ghost use Rattle.hare_typed.specs.ConstantForms as forms;
ghost use Rattle.hare_typed.specs.ConstantForms.{own_type};
ghost use Rattle.hare_const.specs.declared.outcome.Outcome.TheVariants.{Known};
ghost use Rattle.hare_typed.specs.Sizes.{Fits, HasPart};
ghost use Rattle.hare_const.specs.NodeValues as spec;
ghost use Rattle.hare_typed.specs.Settled as asked;

use crate::kids::kid_at;
use crate::outcome::Outcome;
use crate::placing::{Part, whole_of};
use crate::shape::base_row;
use crate::sizes::{size_of, starts_of};
use hare_typed::{Cells, Typed};
use hare_types::{Row, Ty, TypeId, TypeStore};
use std::alloc::{AllocError, Global};

/// The number of a part as `offset_of` takes it. More parts than a `u32` counts are want of memory.
pub(crate) fn part_number(place: u128) -> Result<u32, AllocError>
    ensures { IfOk result (λ n. n ≡ place) }
{
    if place < 4_294_967_296 {
        Ok(place as u32)
    } else {
        Err(AllocError)
    }
}

/// The place of the field of a struct that has this name; 0 where it has none.
fn field_named(s: &TypeStore, base: TypeId, text: &[u8]) -> usize
    ensures { result ≡ unwrap_or (option_and_then (field_at s.now base) (position (bytes_eq text.now) s.now.names)) 0 }
{
    let _law = s.declarations();
    let Some(name) = s.find_name(text) else {
        return 0;
    };
    s.field(base, name).unwrap_or(0)
}

/// Which part of a struct or tuple a node names: a field by its name, a component by its number.
pub(crate) fn part_named(s: &TypeStore, of: TypeId, node: &Typed) -> u128
    ensures { result ≡ forms.part_named s.now (ty.Of of) (head_of node.now) }
{
    match base_row(s, of) {
        Some(Row::Struct(_)) => match s.base(of) {
            Some(base) => field_named(s, base, node.text.bytes()) as u128,
            None => 0,
        },
        _ => node.number,
    }
}

/// The components that a tuple gives.
fn components_given(alloc: Global, t: &Typed) -> Result<Vec<u32>, AllocError>
    ensures { IfOk result (λ ns. ns.items ≡ asked.components_given t.now) }
{
    let mut places = Vec::new(alloc);
    for i in 0..t.kids.len().saturating_sub(1) {
        places.push(part_number(i as u128)?)?;
    }
    Ok(places)
}

/// The fields that a struct gives, in the order in which they are written: behind the place for the type.
fn fields_given(alloc: Global, s: &TypeStore, of: TypeId, t: &Typed) -> Result<Vec<u32>, AllocError>
    requires { own_type t.now ≡ ty.Of of }
    ensures { IfOk result (λ ns. ns.items ≡ asked.fields_given s.now t.now) }
{
    let mut places = Vec::new(alloc);
    for i in 0..t.kids.len().saturating_sub(2) {
        let Some(field) = t.kids.get(i + 1) else {
            return Err(AllocError);
        };
        places.push(part_number(part_named(s, of, field))?)?;
    }
    Ok(places)
}

/// Parts at their offsets, which are the values of the kids from one on, in whatever order; `none` stands for a kid that is not there.
/// Where each part of the type begins is worked out once.
fn laid(
    alloc: Global,
    s: &TypeStore,
    of: TypeId,
    parts: &[u32],
    from: usize,
    kids: &[Outcome],
    none: &Outcome,
) -> Result<Outcome, AllocError>
    requires fits { Fits s.now of }
    requires parts { All (HasPart s.now of) parts.now }
    requires from { from ≤ 1 }
    requires none { none.now ≡ Known [] }
    ensures { IfOk result (λ o. o ≡ spec.kids_at from (length parts.now) kids.now
        (λ cs. Known (forms.made_of s.now (ty.Of of) parts.now cs))) }
{
    let size = size_of(s, of) as usize;
    let starts = starts_of(alloc, s, of)?;
    let mut given = Vec::new(alloc);
    for i in 0..parts.len() {
        let kid = from + i;
        match kid_at(kids, kid, none) {
            Outcome::Known(_) => {
                let start = starts[parts[i] as usize];
                given.push(Part { start, kid })?;
            }
            Outcome::Aborts => return Ok(Outcome::Aborts),
            Outcome::Undefined => return Ok(Outcome::Undefined),
        }
    }
    let whole = whole_of(alloc, size, given, kids, none)?;
    Ok(Outcome::Known(whole))
}

/// The value of a tuple: its components at their offsets, and undefined cells between them.
pub(crate) fn tuple_value(
    alloc: Global,
    s: &TypeStore,
    t: &Typed,
    kids: &[Outcome],
) -> Result<Outcome, AllocError>
    requires { asked.HasParts s.now (own_type t.now) (asked.components_given t.now) }
    ensures { IfOk result (λ o. o ≡ spec.kids_at 0 (items_of kind.Tuple (kids_of t.now)) kids.now
        (λ cs. Known (spec.tuple_value s.now t.now cs))) }
{
    let Ty::Of(of) = t.ty else { unreachable!() };
    let parts = components_given(alloc, t)?;
    let none = Outcome::Known(Cells::new(alloc));
    laid(alloc, s, of, parts.as_slice(), 0, kids, &none)
}

/// The value of a struct: its fields at their offsets, and undefined cells between them and in the place of those that are not given.
pub(crate) fn struct_value(
    alloc: Global,
    s: &TypeStore,
    t: &Typed,
    kids: &[Outcome],
) -> Result<Outcome, AllocError>
    requires { asked.HasParts s.now (own_type t.now) (asked.fields_given s.now t.now) }
    ensures { IfOk result (λ o. o ≡ spec.kids_at 1 (items_of kind.StructLit (kids_of t.now)) kids.now
        (λ cs. Known (spec.struct_value s.now t.now cs))) }
{
    let Ty::Of(of) = t.ty else { unreachable!() };
    let parts = fields_given(alloc, s, of, t)?;
    let none = Outcome::Known(Cells::new(alloc));
    laid(alloc, s, of, parts.as_slice(), 1, kids, &none)
}
