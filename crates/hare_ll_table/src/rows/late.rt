//! Rows of expressions at which a token behind the first tells the kind.

ghost use Rattle.std.specs.Prelude.{◌≡◌, OnOk};
ghost use Rattle.hare_automaton.specs.ExpressionRows as rows;
ghost use Rattle.hare_ll_table.specs.Seen.{row_in};

use crate::row::{RowBuffer, Wait, before, faults, led_by, of, or_skips, part, skips, uses};
use crate::rows::starts::level_row;
use hare_automaton::{Change, Class, Rule, Symbol};
use hare_tree::{Kind, Own, Sign, Sort};
use std::alloc::AllocError;

/// A path with fields is a struct literal.
pub fn path_or_struct_row(row: &mut RowBuffer, class: Class) -> Result<(), AllocError>
    ensures { OnOk result (row_in row.new ≡ rows.path_or_struct_row class) }
{
    match class {
        Class::Sign(Sign::PathMark) => uses(
            row,
            &[Change::Join],
            &[part(Rule::PathName), part(Rule::PathOrStruct)],
        ),
        Class::Sign(Sign::LeftBrace) => uses(
            row,
            &[Change::Close(Kind::TypePath)],
            &[Wait::Rest(2, Kind::StructLit)],
        ),
        _ => skips(row, &[Change::Close(Kind::Path), Change::Lift]),
    }
}

/// A comma makes a tuple.
pub fn after_value_row(row: &mut RowBuffer, class: Class) -> Result<(), AllocError>
    ensures { OnOk result (row_in row.new ≡ rows.after_value_row class) }
{
    match class {
        Class::Sign(Sign::RightParen) => uses(row, &[Change::Close(Kind::Paren)], &[]),
        Class::Sign(Sign::Comma) => uses(row, &[], &[Wait::Rest(3, Kind::Tuple)]),
        _ => faults(row),
    }
}

/// Two dots make a slice.
pub fn in_index_row(row: &mut RowBuffer, class: Class) -> Result<(), AllocError>
    ensures { OnOk result (row_in row.new ≡ rows.in_index_row class) }
{
    match class {
        Class::Sign(Sign::DotDot) => { uses(row, &[Change::Absent], &[Wait::Rest(4, Kind::Slice)]) }
        _ => {
            level_row(row, 1, class)?;
            before(row, &[part(Rule::AfterIndex)])
        }
    }
}

/// The end of an index, or two dots of a slice.
pub fn after_index_row(row: &mut RowBuffer, class: Class) -> Result<(), AllocError>
    ensures { OnOk result (row_in row.new ≡ rows.after_index_row class) }
{
    match class {
        Class::Sign(Sign::RightBracket) => uses(row, &[Change::Close(Kind::Index)], &[]),
        Class::Sign(Sign::DotDot) => uses(row, &[], &[Wait::Rest(4, Kind::Slice)]),
        _ => faults(row),
    }
}

/// Behind a label, a comma and a value; with no label, a value.
pub fn after_yield_row(row: &mut RowBuffer, class: Class) -> Result<(), AllocError>
    ensures { OnOk result (row_in row.new ≡ rows.after_yield_row class) }
{
    let close = Wait::One(Symbol::Close(Kind::Yield));
    match class {
        Class::Sign(Sign::Colon) => uses(
            row,
            &[],
            &[
                part(Rule::Own(Own::Name)),
                part(Rule::Led(Sign::Comma, Sort::Level(1))),
                close,
            ],
        ),
        _ => {
            level_row(row, 1, class)?;
            before(row, &[close])?;
            or_skips(row, &[Change::Absent, Change::Close(Kind::Yield)])
        }
    }
}

/// Behind `(` of a loop: a binding of its own, or the condition.
pub fn for_head_row(row: &mut RowBuffer, class: Class) -> Result<(), AllocError>
    ensures { OnOk result (row_in row.new ≡ rows.for_head_row class) }
{
    match class {
        Class::Sign(Sign::Let) => uses(
            row,
            &[Change::Open],
            &[part(Rule::Own(Own::Name)), part(Rule::AfterForName)],
        ),
        _ => {
            level_row(row, 1, class)?;
            before(row, &[Wait::Rest(5, Kind::For)])?;
            led_by(row, &[Change::Absent])
        }
    }
}

/// `..` and `& ..` go over the items of a value; a type or a value belongs to the binding of a loop with a condition.
pub fn after_for_name_row(row: &mut RowBuffer, class: Class) -> Result<(), AllocError>
    ensures { OnOk result (row_in row.new ≡ rows.after_for_name_row class) }
{
    match class {
        Class::Sign(Sign::Colon) => uses(
            row,
            &[],
            &[
                of(Sort::Type),
                Wait::One(Symbol::Want(Sign::Equals)),
                of(Sort::Level(1)),
                Wait::One(Symbol::Close(Kind::Let)),
                Wait::One(Symbol::Want(Sign::Semicolon)),
                of(Sort::Level(1)),
                Wait::Rest(5, Kind::For),
            ],
        ),
        Class::Sign(Sign::Equals) => uses(
            row,
            &[Change::Absent],
            &[
                of(Sort::Level(1)),
                Wait::One(Symbol::Close(Kind::Let)),
                Wait::One(Symbol::Want(Sign::Semicolon)),
                of(Sort::Level(1)),
                Wait::Rest(5, Kind::For),
            ],
        ),
        Class::Sign(Sign::DotDot) => uses(
            row,
            &[Change::Absent, Change::Close(Kind::Binding)],
            &[Wait::Rest(4, Kind::ForEach)],
        ),
        Class::Sign(Sign::Ampersand) => uses(
            row,
            &[Change::Mark(Kind::ByRef)],
            &[
                Wait::One(Symbol::Want(Sign::DotDot)),
                Wait::One(Symbol::Close(Kind::Binding)),
                Wait::Rest(4, Kind::ForEach),
            ],
        ),
        _ => faults(row),
    }
}
