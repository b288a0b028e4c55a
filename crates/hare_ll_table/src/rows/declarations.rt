//! Rows of imports and declarations.

ghost use Rattle.std.specs.Prelude.{◌≡◌, OnOk};
ghost use Rattle.hare_automaton.specs.DeclarationRows as rows;
ghost use Rattle.hare_ll_table.specs.Seen.{row_in};

use crate::row::{RowBuffer, Wait, faults, led_by, part, uses};
use hare_automaton::{Change, Class, Rule};
use hare_tree::{Kind, Sign};
use std::alloc::AllocError;

// ---- imports

/// An import.
pub fn use_row(row: &mut RowBuffer, class: Class) -> Result<(), AllocError>
    ensures { OnOk result (row_in row.new ≡ rows.use_row class) }
{
    match class {
        Class::Sign(Sign::Use) => uses(row, &[Change::Open], &[part(Rule::UseStart)]),
        _ => faults(row),
    }
}

/// The first name of a path, or the name of an alias.
pub fn use_start_row(row: &mut RowBuffer, class: Class) -> Result<(), AllocError>
    ensures { OnOk result (row_in row.new ≡ rows.use_start_row class) }
{
    match class {
        Class::Name => uses(
            row,
            &[Change::Open, Change::Leaf(Kind::Name)],
            &[part(Rule::AfterUseName)],
        ),
        _ => faults(row),
    }
}

/// Behind a name of the path.
pub fn after_use_part_row(row: &mut RowBuffer, class: Class) -> Result<(), AllocError>
    ensures { OnOk result (row_in row.new ≡ rows.after_use_part_row class) }
{
    match class {
        Class::Sign(Sign::PathMark) => uses(row, &[], &[part(Rule::AfterUseMark)]),
        Class::Sign(Sign::Semicolon) => uses(
            row,
            &[Change::Close(Kind::ImportPath), Change::Close(Kind::Use)],
            &[],
        ),
        _ => faults(row),
    }
}

/// `=` makes the name an alias.
pub fn after_use_name_row(row: &mut RowBuffer, class: Class) -> Result<(), AllocError>
    ensures { OnOk result (row_in row.new ≡ rows.after_use_name_row class) }
{
    match class {
        Class::Sign(Sign::Equals) => uses(row, &[Change::Lift], &[Wait::Rest(3, Kind::UseAlias)]),
        _ => after_use_part_row(row, class),
    }
}

/// `{` begins the names that are imported.
pub fn after_use_mark_row(row: &mut RowBuffer, class: Class) -> Result<(), AllocError>
    ensures { OnOk result (row_in row.new ≡ rows.after_use_mark_row class) }
{
    match class {
        Class::Name | Class::PathWord => uses(
            row,
            &[Change::Leaf(Kind::Name)],
            &[part(Rule::AfterUsePart)],
        ),
        Class::Sign(Sign::LeftBrace) => uses(
            row,
            &[Change::Close(Kind::ImportPath)],
            &[Wait::Rest(4, Kind::UseNames)],
        ),
        _ => faults(row),
    }
}

/// The path of an alias or of imported names.
pub fn import_path_row(row: &mut RowBuffer, class: Class) -> Result<(), AllocError>
    ensures { OnOk result (row_in row.new ≡ rows.import_path_row class) }
{
    match class {
        Class::Name => uses(
            row,
            &[Change::Open, Change::Leaf(Kind::Name)],
            &[Wait::Rest(1, Kind::ImportPath)],
        ),
        _ => faults(row),
    }
}

// ---- declarations

/// The word of a declaration.
pub fn decl_word_row(row: &mut RowBuffer, class: Class) -> Result<(), AllocError>
    ensures { OnOk result (row_in row.new ≡ rows.decl_word_row class) }
{
    match class {
        Class::Sign(Sign::Def) => uses(row, &[], &[Wait::Rest(2, Kind::Def)]),
        Class::Sign(Sign::Let) => uses(row, &[], &[Wait::Rest(2, Kind::GlobalLet)]),
        Class::Sign(Sign::Const) => uses(row, &[], &[Wait::Rest(2, Kind::GlobalConst)]),
        Class::Sign(Sign::Type) => uses(row, &[], &[Wait::Rest(2, Kind::TypeDecl)]),
        Class::Sign(Sign::Fn) => uses(row, &[], &[Wait::Rest(2, Kind::Fn)]),
        _ => faults(row),
    }
}

/// A declaration, with or without `export`.
pub fn decl_row(row: &mut RowBuffer, class: Class) -> Result<(), AllocError>
    ensures { OnOk result (row_in row.new ≡ rows.decl_row class) }
{
    match class {
        Class::Sign(Sign::Export) => uses(
            row,
            &[Change::Open, Change::Mark(Kind::Export)],
            &[part(Rule::DeclWord)],
        ),
        _ => {
            decl_word_row(row, class)?;
            led_by(row, &[Change::Open, Change::Absent])
        }
    }
}
