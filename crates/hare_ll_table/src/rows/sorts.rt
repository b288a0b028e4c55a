//! Rows of small parts, statements and patterns, and the row of each sort.

ghost use Rattle.std.specs.Prelude.{◌≡◌, OnOk};
ghost use Rattle.hare_automaton.specs.DeclarationRows as rows;
ghost use Rattle.hare_ll_table.specs.Seen.{row_in};

use crate::row::{RowBuffer, Wait, before, faults, leaf, led_by, mark, names, opens};
use crate::rows::declarations::{decl_row, import_path_row, use_row};
use crate::rows::starts::level_row;
use crate::rows::types::{bare_row, length_row, member_row, type_path_row, type_row};
use hare_automaton::{Change, Class};
use hare_tree::{Kind, Sign, Sort};
use std::alloc::AllocError;

/// A name.
fn name_row(row: &mut RowBuffer, class: Class) -> Result<(), AllocError>
    ensures { OnOk result (row_in row.new ≡ rows.name_row class) }
{
    match class {
        Class::Name => leaf(row, Kind::Name),
        _ => faults(row),
    }
}

/// A name behind `::`.
fn further_name_row(row: &mut RowBuffer, class: Class) -> Result<(), AllocError>
    ensures { OnOk result (row_in row.new ≡ rows.further_name_row class) }
{
    match class {
        Class::Name | Class::PathWord => leaf(row, Kind::Name),
        _ => faults(row),
    }
}

/// A tree of the kind that begins with its name.
fn named_row(row: &mut RowBuffer, kind: Kind, class: Class) -> Result<(), AllocError>
    ensures { OnOk result (row_in row.new ≡ rows.named_row kind class) }
{
    match class {
        Class::Name => names(row, kind),
        _ => faults(row),
    }
}

/// The text of an abort or an assertion.
fn message_row(row: &mut RowBuffer, class: Class) -> Result<(), AllocError>
    ensures { OnOk result (row_in row.new ≡ rows.message_row class) }
{
    match class {
        Class::Text => leaf(row, Kind::Message),
        _ => faults(row),
    }
}

/// `export`.
fn export_row(row: &mut RowBuffer, class: Class) -> Result<(), AllocError>
    ensures { OnOk result (row_in row.new ≡ rows.export_row class) }
{
    match class {
        Class::Sign(Sign::Export) => mark(row, Kind::Export),
        _ => faults(row),
    }
}

/// `...`.
fn dots_row(row: &mut RowBuffer, class: Class) -> Result<(), AllocError>
    ensures { OnOk result (row_in row.new ≡ rows.dots_row class) }
{
    match class {
        Class::Sign(Sign::Dots) => mark(row, Kind::Dots),
        _ => faults(row),
    }
}

/// `&` of a binding.
fn by_ref_row(row: &mut RowBuffer, class: Class) -> Result<(), AllocError>
    ensures { OnOk result (row_in row.new ≡ rows.by_ref_row class) }
{
    match class {
        Class::Sign(Sign::Ampersand) => mark(row, Kind::ByRef),
        _ => faults(row),
    }
}

/// The parameters of a function.
fn params_row(row: &mut RowBuffer, class: Class) -> Result<(), AllocError>
    ensures { OnOk result (row_in row.new ≡ rows.params_row class) }
{
    match class {
        Class::Sign(Sign::LeftParen) => opens(row, Kind::Params),
        _ => faults(row),
    }
}

// ---- statements and patterns

/// A binding of a loop with a condition.
fn let_row(row: &mut RowBuffer, class: Class) -> Result<(), AllocError>
    ensures { OnOk result (row_in row.new ≡ rows.let_row class) }
{
    match class {
        Class::Sign(Sign::Let) => opens(row, Kind::Let),
        _ => faults(row),
    }
}

/// A binding of a loop over items.
fn binding_row(row: &mut RowBuffer, class: Class) -> Result<(), AllocError>
    ensures { OnOk result (row_in row.new ≡ rows.binding_row class) }
{
    match class {
        Class::Sign(Sign::Let) => opens(row, Kind::Binding),
        _ => faults(row),
    }
}

/// A statement.
fn statement_row(row: &mut RowBuffer, class: Class) -> Result<(), AllocError>
    ensures { OnOk result (row_in row.new ≡ rows.statement_row class) }
{
    match class {
        Class::Sign(Sign::Let) => opens(row, Kind::Let),
        Class::Sign(Sign::Const) => opens(row, Kind::Const),
        Class::Sign(Sign::Defer) => opens(row, Kind::Defer),
        _ => level_row(row, 1, class),
    }
}

/// A pattern of a `match`.
fn pattern_row(row: &mut RowBuffer, class: Class) -> Result<(), AllocError>
    ensures { OnOk result (row_in row.new ≡ rows.pattern_row class) }
{
    match class {
        Class::Sign(Sign::Let) => opens(row, Kind::PatternLet),
        Class::Sign(Sign::Null) => mark(row, Kind::PatternNull),
        _ => type_row(row, class),
    }
}

/// A case of a `match`.
fn case_row(row: &mut RowBuffer, class: Class) -> Result<(), AllocError>
    ensures { OnOk result (row_in row.new ≡ rows.case_row class) }
{
    match class {
        Class::Sign(Sign::Case) => opens(row, Kind::Case),
        _ => faults(row),
    }
}

/// A case of a `switch`.
fn switch_case_row(row: &mut RowBuffer, class: Class) -> Result<(), AllocError>
    ensures { OnOk result (row_in row.new ≡ rows.switch_case_row class) }
{
    match class {
        Class::Sign(Sign::Case) => opens(row, Kind::SwitchCase),
        _ => faults(row),
    }
}

/// The values of a case, which begin with the first of them.
fn values_row(row: &mut RowBuffer, class: Class) -> Result<(), AllocError>
    ensures { OnOk result (row_in row.new ≡ rows.values_row class) }
{
    level_row(row, 1, class)?;
    before(row, &[Wait::Rest(1, Kind::Values)])?;
    led_by(row, &[Change::Open])
}

// ---- all sorts

/// A tree of the sort.
pub fn of_row(row: &mut RowBuffer, sort: Sort, class: Class) -> Result<(), AllocError>
    ensures { OnOk result (row_in row.new ≡ rows.of_row sort class) }
{
    match sort {
        Sort::Use => use_row(row, class),
        Sort::Decl => decl_row(row, class),
        Sort::ImportPath => import_path_row(row, class),
        Sort::Name => name_row(row, class),
        Sort::PathName => further_name_row(row, class),
        Sort::Export => export_row(row, class),
        Sort::Params => params_row(row, class),
        Sort::Param => named_row(row, Kind::Param, class),
        Sort::StructField => named_row(row, Kind::StructField, class),
        Sort::Dots => dots_row(row, class),
        Sort::ByRef => by_ref_row(row, class),
        Sort::Type => type_row(row, class),
        Sort::BareType => bare_row(row, class),
        Sort::Member => member_row(row, class),
        Sort::TypePath => type_path_row(row, class),
        Sort::Length => length_row(row, class),
        Sort::Message => message_row(row, class),
        Sort::Level(level) => level_row(row, level, class),
        Sort::Left | Sort::Right => faults(row),
        Sort::FieldValue => named_row(row, Kind::FieldValue, class),
        Sort::Let => let_row(row, class),
        Sort::Binding => binding_row(row, class),
        Sort::Statement => statement_row(row, class),
        Sort::Pattern => pattern_row(row, class),
        Sort::Case => case_row(row, class),
        Sort::SwitchCase => switch_case_row(row, class),
        Sort::Values => values_row(row, class),
    }
}
