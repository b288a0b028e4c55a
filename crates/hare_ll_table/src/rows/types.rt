//! Rows of types.

ghost use Rattle.std.specs.Prelude.{◌≡◌, OnOk};
ghost use Rattle.hare_automaton.specs.TypeRows as rows;
ghost use Rattle.hare_ll_table.specs.Seen.{row_in};

use crate::row::{RowBuffer, Wait, before, faults, leaf, opens, part, path, skips, uses};
use hare_automaton::{Change, Class, Rule};
use hare_tree::{Kind, Sign};
use std::alloc::AllocError;

/// A type without `!` before it.
pub fn bare_row(row: &mut RowBuffer, class: Class) -> Result<(), AllocError>
    ensures { OnOk result (row_in row.new ≡ rows.bare_row class) }
{
    match class {
        Class::Scalar | Class::Sign(Sign::Size | Sign::Void) => leaf(row, Kind::TypeScalar),
        Class::Name => path(row, Kind::TypePath),
        Class::Sign(Sign::Star) => opens(row, Kind::TypePointer),
        Class::Sign(Sign::Nullable) => opens(row, Kind::TypeNullable),
        Class::Sign(Sign::Struct) => opens(row, Kind::TypeStruct),
        Class::Sign(Sign::LeftBracket) => uses(row, &[Change::Open], &[part(Rule::InBracket)]),
        Class::Sign(Sign::LeftParen) => uses(row, &[Change::Open], &[part(Rule::FirstMember)]),
        _ => faults(row),
    }
}

/// A type.
pub fn type_row(row: &mut RowBuffer, class: Class) -> Result<(), AllocError>
    ensures { OnOk result (row_in row.new ≡ rows.type_row class) }
{
    match class {
        Class::Sign(Sign::Bang) => opens(row, Kind::TypeError),
        _ => bare_row(row, class),
    }
}

/// A member of a union: a type, or a spread.
pub fn member_row(row: &mut RowBuffer, class: Class) -> Result<(), AllocError>
    ensures { OnOk result (row_in row.new ≡ rows.member_row class) }
{
    match class {
        Class::Sign(Sign::Dots) => opens(row, Kind::Spread),
        _ => type_row(row, class),
    }
}

/// A path that is a type.
pub fn type_path_row(row: &mut RowBuffer, class: Class) -> Result<(), AllocError>
    ensures { OnOk result (row_in row.new ≡ rows.type_path_row class) }
{
    match class {
        Class::Name => path(row, Kind::TypePath),
        _ => faults(row),
    }
}

/// The length of an array.
pub fn length_row(row: &mut RowBuffer, class: Class) -> Result<(), AllocError>
    ensures { OnOk result (row_in row.new ≡ rows.length_row class) }
{
    match class {
        Class::Number => leaf(row, Kind::Number),
        Class::Name => path(row, Kind::Path),
        _ => faults(row),
    }
}

// ---- behind a bracket or a parenthesis

/// `[]` is a slice, and a length an array.
pub fn bracket_row(row: &mut RowBuffer, class: Class) -> Result<(), AllocError>
    ensures { OnOk result (row_in row.new ≡ rows.bracket_row class) }
{
    match class {
        Class::Sign(Sign::RightBracket) => uses(row, &[], &[Wait::Rest(2, Kind::TypeSlice)]),
        _ => {
            length_row(row, class)?;
            before(row, &[Wait::Rest(2, Kind::TypeArray)])
        }
    }
}

/// A spread is a member of a union, and a type may be one of a tuple.
pub fn first_row(row: &mut RowBuffer, class: Class) -> Result<(), AllocError>
    ensures { OnOk result (row_in row.new ≡ rows.first_row class) }
{
    match class {
        Class::Sign(Sign::Dots) => {
            opens(row, Kind::Spread)?;
            before(row, &[part(Rule::AfterSpread)])
        }
        _ => {
            type_row(row, class)?;
            before(row, &[part(Rule::AfterType)])
        }
    }
}

/// A bar makes a union.
pub fn spread_row(row: &mut RowBuffer, class: Class) -> Result<(), AllocError>
    ensures { OnOk result (row_in row.new ≡ rows.spread_row class) }
{
    match class {
        Class::Sign(Sign::Bar) => uses(row, &[], &[Wait::Rest(3, Kind::TypeUnion)]),
        _ => faults(row),
    }
}

/// A comma makes a tuple, and a bar a union.
pub fn after_row(row: &mut RowBuffer, class: Class) -> Result<(), AllocError>
    ensures { OnOk result (row_in row.new ≡ rows.after_row class) }
{
    match class {
        Class::Sign(Sign::Comma) => uses(row, &[], &[Wait::Rest(3, Kind::TypeTuple)]),
        _ => spread_row(row, class),
    }
}

// ---- paths

/// A name behind `::`.
pub fn path_name_row(row: &mut RowBuffer, class: Class) -> Result<(), AllocError>
    ensures { OnOk result (row_in row.new ≡ rows.path_name_row class) }
{
    match class {
        Class::Name | Class::PathWord => uses(row, &[Change::Join], &[]),
        _ => faults(row),
    }
}

/// `::` and a further name, or the end of the path.
pub fn path_rest_row(row: &mut RowBuffer, kind: Kind, class: Class) -> Result<(), AllocError>
    ensures { OnOk result (row_in row.new ≡ rows.path_rest_row kind class) }
{
    match class {
        Class::Sign(Sign::PathMark) => uses(
            row,
            &[Change::Join],
            &[part(Rule::PathName), part(Rule::PathRest(kind))],
        ),
        _ => skips(row, &[Change::Close(kind)]),
    }
}
