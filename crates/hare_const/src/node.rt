//! The value of a node from those of its kids.

ghost use Rattle.std.specs.Prelude.{◌≡◌, ◌++◌, ◌-◌, ◌<◌, ◌^◌, IfOk, OnOk};
ghost use Rattle.hare_typed.specs.Folded.{tagged_by_id};
ghost use Rattle.hare_typed.specs.Constants.{own_kind};
ghost use Rattle.hare_const.specs.declared.outcome.Outcome.TheVariants.{Known};
ghost use Rattle.hare_const.specs.NodeValues as spec;
ghost use Rattle.hare_typed.specs.Settled as asked;
ghost use Rattle.hare_const.specs.Made.{made_of_node};
ghost use Rattle.hare_typed.specs.Settled.{IsSettled};

use crate::addresses::{address_value, literal_text};
use crate::array::array_value;
use crate::calculated::{
    arithmetic_value, complement, denial, equality_value, logic_value, negation, order_value,
    shift_value,
};
use crate::casts::cast_value;
use crate::coercions::coerced_cells;
use crate::constancy::is_evaluated;
use crate::kids::kid_at;
use crate::literals::{cells_known, literal, literal_bool};
use crate::measures::{align_value, length_value, offset_value, size_value};
use crate::operands::{Operands, operands_of};
use crate::outcome::Outcome;
use crate::parts::{struct_value, tuple_value};
use hare_tree::Kind;
use hare_typed::{Cells, ConstObjects, Typed};
use hare_types::TypeStore;
use std::alloc::{AllocError, Global};

/// The value of a node that is made of no kid's.
fn leaf_value(alloc: Global, s: &TypeStore, own: u32, t: &Typed) -> Result<Cells, AllocError>
    requires own { own < 2 ^ 32 - 1 }
    requires asked { asked.AskedKind s.now t.now (own_kind t.now) }
    ensures { IfOk result (λ cs. cs ≡ spec.leaf_value s.now own t.now (own_kind t.now)) }
{
    match t.kind {
        Kind::Number | Kind::RuneLit => literal(alloc, s, t),
        Kind::Bool => literal_bool(alloc, t),
        Kind::Str => literal_text(alloc, own, t),
        Kind::Path => cells_known(alloc, &t.value),
        Kind::Size => size_value(alloc, s, t),
        Kind::Align => align_value(alloc, s, t),
        Kind::Addr => address_value(alloc, t),
        Kind::Offset => offset_value(alloc, s, t),
        _ => Ok(Cells::new(alloc)),
    }
}

/// The same cells once more.
fn copied(alloc: Global, cells: &Cells) -> Result<Cells, AllocError>
    ensures { IfOk result (λ cs. cs ≡ cells.now) }
{
    let mut copy = Cells::new(alloc);
    copy.append(alloc, cells)?;
    Ok(copy)
}

/// The value of a node that is made of its first kid's.
fn unary_value(alloc: Global, s: &TypeStore, t: &Typed, cells: &Cells) -> Result<Cells, AllocError>
    requires { asked.AskedKind s.now t.now (own_kind t.now) }
    ensures { IfOk result (λ cs. Known cs ≡ spec.unary_value s.now t.now (own_kind t.now) cells.now) }
{
    match t.kind {
        Kind::Neg => negation(alloc, s, t, cells),
        Kind::Not => complement(alloc, s, t, cells),
        Kind::Bang => denial(alloc, cells),
        Kind::Cast => cast_value(alloc, s, t, cells),
        Kind::Len => length_value(alloc, s, t, cells),
        _ => copied(alloc, cells),
    }
}

/// The value of a node that is made of its first two kids'.
fn binary_value(
    alloc: Global,
    s: &TypeStore,
    t: &Typed,
    left: &Cells,
    right: &Cells,
) -> Result<Outcome, AllocError>
    requires { asked.AskedKind s.now t.now (own_kind t.now) }
    ensures { IfOk result (λ o. o ≡ spec.binary_value s.now t.now (own_kind t.now) left.now right.now) }
{
    match t.kind {
        Kind::Arith => arithmetic_value(alloc, s, t, left, right),
        Kind::Shift => Ok(Outcome::Known(shift_value(alloc, s, t, left, right)?)),
        Kind::Less => Ok(Outcome::Known(order_value(alloc, s, t, left, right)?)),
        _ => Ok(Outcome::Known(equality_value(alloc, s, t, left, right)?)),
    }
}

/// The value of a node of one of the kinds that take the values of one kid or two.
fn operator_value(
    alloc: Global,
    s: &TypeStore,
    t: &Typed,
    operands: Operands,
    first: &Outcome,
    second: &Outcome,
) -> Result<Outcome, AllocError>
    requires { asked.AskedKind s.now t.now (own_kind t.now) }
    ensures { IfOk result (λ o. o ≡ spec.operator_value s.now t.now (own_kind t.now) operands first.now second.now) }
{
    let left = match first {
        Outcome::Known(cells) => cells,
        Outcome::Aborts => return Ok(Outcome::Aborts),
        Outcome::Undefined => return Ok(Outcome::Undefined),
    };
    match operands {
        Operands::TwoKids => match second {
            Outcome::Known(right) => binary_value(alloc, s, t, left, right),
            Outcome::Aborts => Ok(Outcome::Aborts),
            Outcome::Undefined => Ok(Outcome::Undefined),
        },
        Operands::RightIfOpen => logic_value(alloc, t, left, second),
        _ => Ok(Outcome::Known(unary_value(alloc, s, t, left)?)),
    }
}

/// The value of a node, before its coercion, from those of its kids.
fn own_value(
    alloc: Global,
    s: &TypeStore,
    own: u32,
    t: &Typed,
    kids: &[Outcome],
) -> Result<Outcome, AllocError>
    requires own { own < 2 ^ 32 - 1 }
    requires asked { asked.AskedKind s.now t.now (own_kind t.now) }
    ensures { IfOk result (λ o. o ≡ spec.own_value s.now own t.now kids.now) }
{
    let none = Outcome::Known(Cells::new(alloc));
    let operands = operands_of(t.kind);
    match operands {
        Operands::NoKid => Ok(Outcome::Known(leaf_value(alloc, s, own, t)?)),
        Operands::OneKid | Operands::TwoKids | Operands::RightIfOpen => {
            let (first, second) = (kid_at(kids, 0, &none), kid_at(kids, 1, &none));
            operator_value(alloc, s, t, operands, first, second)
        }
        Operands::Elements => array_value(alloc, s, t, kids),
        Operands::Components => tuple_value(alloc, s, t, kids),
        Operands::Fields => struct_value(alloc, s, t, kids),
    }
}

/// The value of a node, as its coercion gives it, from those of its kids. Where it is an array that becomes a slice, its object is put
/// behind the others.
pub(crate) fn node_value(
    alloc: Global,
    s: &TypeStore,
    own: u32,
    t: &Typed,
    kids: &[Outcome],
    made: &mut ConstObjects,
) -> Result<Outcome, AllocError>
    requires own { own < 2 ^ 32 - 1 }
    requires asked { asked.AskedKind s.now t.now (own_kind t.now) }
    requires settled { IsSettled s.now t.now }
    ensures value { IfOk result (λ o. o ≡ spec.node_value (tagged_by_id s.now) own t.now kids.now) }
    ensures made { OnOk result (made.new ≡ made.old ++ made_of_node (tagged_by_id s.now) own t.now (own_kind t.now) kids.now) }
{
    let _law = s.declarations();
    if !is_evaluated(t.kind) {
        return Ok(Outcome::Known(Cells::new(alloc)));
    }
    match own_value(alloc, s, own, t, kids)? {
        Outcome::Known(cells) => {
            let coerced = coerced_cells(alloc, s, own, t, cells, made)?;
            Ok(Outcome::Known(coerced))
        }
        Outcome::Aborts => Ok(Outcome::Aborts),
        Outcome::Undefined => Ok(Outcome::Undefined),
    }
}
