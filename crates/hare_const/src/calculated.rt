//! Operators on numbers and bools.

ghost use Rattle.std.specs.Prelude.{◌≡◌, false, IfOk};
ghost use Rattle.hare_typed.specs.Shapes as shapes;
ghost use Rattle.hare_typed.specs.ConstantForms.{is_iconst, truth as holds, type_of_kid as kid_type};
ghost use Rattle.hare_const.specs.Operators.{int_of, IsWhole};
ghost use Rattle.hare_const.specs.NodeValues as spec;
ghost use Rattle.hare_typed.specs.Settled as asked;

use crate::kids::type_of_kid;
use crate::literals::bool_cells;
use crate::number::{number_cells, number_of_value, typed_number};
use crate::operators::{
    Arithmetic, IntType, Logic, Order, Shift, combined, complemented, computed, in_order,
    leaves_open, negated, same_number, shifted,
};
use crate::outcome::Outcome;
use crate::shape::{Shape, is_str, shape_at};
use crate::texts::same_texts;
use hare_typed::{Cell, Cells, Typed};
use hare_types::{Ty, TypeId, TypeStore};
use std::alloc::{AllocError, Global};

/// The integer type that is the base of a type; one without bits where there is none.
fn int_at(s: &TypeStore, t: TypeId) -> IntType
    ensures { int_of result ≡ shapes.int_at s.now t }
{
    let (bits, signed) = match shape_at(s, t) {
        Some(Shape::Whole(bytes, signed)) => (8 * bytes, signed),
        Some(Shape::Truth) => (8, false),
        Some(Shape::Reference | Shape::Nullable) => (64, false),
        None => (0, false),
    };
    IntType { bits, signed }
}

/// The number that an operand is, which has a type.
fn operand(s: &TypeStore, t: &Typed, i: usize, cells: &Cells) -> i128
    requires { is_iconst (kid_type i t.now) ≡ false }
    ensures value { result ≡ spec.number_of_kid s.now t.now i cells.now }
    ensures whole { IsWhole result }
{
    match type_of_kid(t, i) {
        Ty::Of(of) => typed_number(s, of, cells),
        Ty::Iconst(_) => unreachable!(),
        Ty::Null | Ty::Empty => 0,
    }
}

/// The number that an operand is, whether it has a type or not.
fn number_of_kid(s: &TypeStore, t: &Typed, i: usize, cells: &Cells) -> i128
    ensures { result ≡ spec.number_of_kid s.now t.now i cells.now }
{
    number_of_value(s, type_of_kid(t, i), cells)
}

/// Whether the cells are those of true.
pub(crate) fn truth(cells: &Cells) -> bool
    ensures { result ≡ holds cells.now }
{
    cells.len() == 1 && cells.get(0) == Some(Cell::Byte(1))
}

/// The value of `-` before an operand.
pub(crate) fn negation(
    alloc: Global,
    s: &TypeStore,
    t: &Typed,
    cells: &Cells,
) -> Result<Cells, AllocError>
    requires { asked.HasNumber s.now t.now }
    ensures { IfOk result (λ cs. cs ≡ spec.negation s.now t.now cells.now) }
{
    let Ty::Of(of) = t.ty else {
        return Ok(Cells::new(alloc));
    };
    let number = negated(int_at(s, of), operand(s, t, 0, cells));
    number_cells(alloc, s, t.ty, number)
}

/// The value of `~` before an operand.
pub(crate) fn complement(
    alloc: Global,
    s: &TypeStore,
    t: &Typed,
    cells: &Cells,
) -> Result<Cells, AllocError>
    requires { asked.HasNumber s.now t.now }
    ensures { IfOk result (λ cs. cs ≡ spec.complement s.now t.now cells.now) }
{
    let Ty::Of(of) = t.ty else {
        return Ok(Cells::new(alloc));
    };
    let number = complemented(int_at(s, of), operand(s, t, 0, cells));
    number_cells(alloc, s, t.ty, number)
}

/// The value of an operator between two numbers. It aborts where the divisor is zero.
pub(crate) fn arithmetic_value(
    alloc: Global,
    s: &TypeStore,
    t: &Typed,
    left: &Cells,
    right: &Cells,
) -> Result<Outcome, AllocError>
    requires { asked.HasNumbers s.now t.now }
    ensures { IfOk result (λ o. o ≡ spec.arithmetic_value s.now t.now left.now right.now) }
{
    let Ty::Of(of) = t.ty else {
        return Ok(Outcome::Known(Cells::new(alloc)));
    };
    let op = Arithmetic::of_sign(t.text.bytes());
    let (x, y) = (operand(s, t, 0, left), operand(s, t, 1, right));
    match computed(op, int_at(s, of), x, y) {
        Some(number) => Ok(Outcome::Known(number_cells(alloc, s, t.ty, number)?)),
        None => Ok(Outcome::Aborts),
    }
}

/// The value of a shift.
pub(crate) fn shift_value(
    alloc: Global,
    s: &TypeStore,
    t: &Typed,
    left: &Cells,
    right: &Cells,
) -> Result<Cells, AllocError>
    requires { asked.HasNumber s.now t.now }
    ensures { IfOk result (λ cs. cs ≡ spec.shift_value s.now t.now left.now right.now) }
{
    let Ty::Of(of) = t.ty else {
        return Ok(Cells::new(alloc));
    };
    let way = Shift::of_sign(t.text.bytes());
    let (x, y) = (operand(s, t, 0, left), number_of_kid(s, t, 1, right));
    number_cells(alloc, s, t.ty, shifted(way, int_at(s, of), x, y))
}

/// The value of a comparison by order.
pub(crate) fn order_value(
    alloc: Global,
    s: &TypeStore,
    t: &Typed,
    left: &Cells,
    right: &Cells,
) -> Result<Cells, AllocError>
    ensures { IfOk result (λ cs. cs ≡ spec.order_value s.now t.now left.now right.now) }
{
    let order = Order::of_sign(t.text.bytes());
    let (x, y) = (number_of_kid(s, t, 0, left), number_of_kid(s, t, 1, right));
    bool_cells(alloc, in_order(order, x, y))
}

/// Whether two operands are equal: two texts where their bytes are, and else two numbers or bools.
fn same_operands(
    alloc: Global,
    s: &TypeStore,
    t: &Typed,
    left: &Cells,
    right: &Cells,
) -> Result<bool, AllocError>
    ensures { IfOk result (λ b. b ≡ spec.same_operands s.now t.now left.now right.now) }
{
    if is_str(s, type_of_kid(t, 0)) {
        return same_texts(alloc, s, t);
    }
    Ok(same_number(number_of_kid(s, t, 0, left), number_of_kid(s, t, 1, right)))
}

/// The value of `==` or `!=` between two texts, numbers or bools.
pub(crate) fn equality_value(
    alloc: Global,
    s: &TypeStore,
    t: &Typed,
    left: &Cells,
    right: &Cells,
) -> Result<Cells, AllocError>
    ensures { IfOk result (λ cs. cs ≡ spec.equality_value s.now t.now left.now right.now) }
{
    let same = same_operands(alloc, s, t, left, right)?;
    let asks_equal = t.text.bytes() == b"==".as_slice();
    bool_cells(alloc, same == asks_equal)
}

/// The value of `!` before a bool.
pub(crate) fn denial(alloc: Global, cells: &Cells) -> Result<Cells, AllocError>
    ensures { IfOk result (λ cs. cs ≡ spec.denial cells.now) }
{
    bool_cells(alloc, !truth(cells))
}

/// The value of an operator between two bools. The right one counts only where the left one leaves the answer open.
pub(crate) fn logic_value(
    alloc: Global,
    t: &Typed,
    left: &Cells,
    right: &Outcome,
) -> Result<Outcome, AllocError>
    ensures { IfOk result (λ o. o ≡ spec.logic_value t.now left.now right.now) }
{
    let op = Logic::of_sign(t.text.bytes());
    let x = truth(left);
    if !leaves_open(op, x) {
        return Ok(Outcome::Known(bool_cells(alloc, x)?));
    }
    match right {
        Outcome::Known(cells) => {
            let y = truth(cells);
            Ok(Outcome::Known(bool_cells(alloc, combined(op, x, y))?))
        }
        Outcome::Aborts => Ok(Outcome::Aborts),
        Outcome::Undefined => Ok(Outcome::Undefined),
    }
}
