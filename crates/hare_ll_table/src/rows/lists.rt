//! Rows of what a form may have or repeat: optional kids, lists, and a tree's own text.

ghost use Rattle.std.specs.Prelude.{◌≡◌, OnOk};
ghost use Rattle.hare_automaton.specs.Table as rows;
ghost use Rattle.hare_ll_table.specs.Seen.{row_in};

use crate::row::{
    RowBuffer, Wait, before, faults, has_sign, led_by, of, or_skips, part, skips, uses,
};
use crate::rows::sorts::of_row;
use crate::rows::starts::level_row;
use hare_automaton::{Change, Class, Rule, Symbol};
use hare_tree::{Kind, Own, Sign, Sort};
use std::alloc::AllocError;

// ---- a tree's own text

/// The token is the text.
fn takes(row: &mut RowBuffer) -> Result<(), AllocError>
    ensures { OnOk result (row_in row.new ≡ rows.takes) }
{
    uses(row, &[Change::Take], &[])
}

/// What a tree's text is spelled by behind the first token: names, labels and members.
pub fn own_row(row: &mut RowBuffer, own: Own, class: Class) -> Result<(), AllocError>
    ensures { OnOk result (row_in row.new ≡ rows.own_row own class) }
{
    match own {
        Own::Name => match class {
            Class::Name => takes(row),
            _ => faults(row),
        },
        Own::Member => match class {
            Class::Name | Class::Number => takes(row),
            _ => faults(row),
        },
        Own::Label => match class {
            Class::Sign(Sign::Colon) => uses(row, &[], &[part(Rule::Own(Own::Name))]),
            _ => skips(row, &[]),
        },
        _ => faults(row),
    }
}

// ---- kids that may be there, or repeat

/// `[tree]`
pub fn optional_row(row: &mut RowBuffer, sort: Sort, class: Class) -> Result<(), AllocError>
    ensures { OnOk result (row_in row.new ≡ rows.row (Rule.Optional sort) class) }
{
    of_row(row, sort, class)?;
    or_skips(row, &[Change::Absent])
}

/// `[sign tree]`
pub fn led_row(row: &mut RowBuffer, sign: Sign, sort: Sort, class: Class) -> Result<(), AllocError>
    ensures { OnOk result (row_in row.new ≡ rows.row (Rule.Led sign sort) class) }
{
    if has_sign(sign, class) {
        uses(row, &[], &[of(sort)])
    } else {
        skips(row, &[Change::Absent])
    }
}

/// `{tree}`
pub fn each_row(row: &mut RowBuffer, sort: Sort, class: Class) -> Result<(), AllocError>
    ensures { OnOk result (row_in row.new ≡ rows.row (Rule.Each sort) class) }
{
    of_row(row, sort, class)?;
    before(row, &[part(Rule::Each(sort))])?;
    or_skips(row, &[])
}

/// `{sign tree}`
pub fn each_led_row(
    row: &mut RowBuffer,
    sign: Sign,
    sort: Sort,
    class: Class,
) -> Result<(), AllocError>
    ensures { OnOk result (row_in row.new ≡ rows.row (Rule.EachLed sign sort) class) }
{
    if has_sign(sign, class) {
        uses(row, &[], &[of(sort), part(Rule::EachLed(sign, sort))])
    } else {
        skips(row, &[])
    }
}

/// `{tree sign}`
pub fn each_followed_row(
    row: &mut RowBuffer,
    sort: Sort,
    sign: Sign,
    class: Class,
) -> Result<(), AllocError>
    ensures { OnOk result (row_in row.new ≡ rows.row (Rule.EachFollowed sort sign) class) }
{
    let want = Wait::One(Symbol::Want(sign));
    of_row(row, sort, class)?;
    before(row, &[want, part(Rule::EachFollowed(sort, sign))])?;
    or_skips(row, &[])
}

/// `[tree {"," tree} [","]]`
pub fn list_row(row: &mut RowBuffer, sort: Sort, class: Class) -> Result<(), AllocError>
    ensures { OnOk result (row_in row.new ≡ rows.row (Rule.List sort) class) }
{
    of_row(row, sort, class)?;
    before(row, &[part(Rule::More(sort))])?;
    or_skips(row, &[Change::Absent])
}

/// Behind a comma, where a tree was begun that is a trailing comma unless another item follows.
pub fn more_row(row: &mut RowBuffer, sort: Sort, class: Class) -> Result<(), AllocError>
    ensures { OnOk result (row_in row.new ≡ rows.more_row sort class) }
{
    if has_sign(Sign::Comma, class) {
        uses(row, &[Change::Open], &[part(Rule::BehindComma(sort))])
    } else {
        skips(row, &[Change::Absent])
    }
}

/// The next item of a list, or the end behind a trailing comma.
pub fn behind_comma_row(row: &mut RowBuffer, sort: Sort, class: Class) -> Result<(), AllocError>
    ensures { OnOk result (row_in row.new ≡ rows.behind_comma_row sort class) }
{
    of_row(row, sort, class)?;
    before(row, &[part(Rule::More(sort))])?;
    led_by(row, &[Change::Drop])?;
    or_skips(row, &[Change::Close(Kind::TrailingComma)])
}

// ---- elements of an array, which end with two kids: `...` or None, and a trailing comma or None

/// `[expr {"," expr} ["..."] [","]]`
pub fn elements_row(row: &mut RowBuffer, class: Class) -> Result<(), AllocError>
    ensures { OnOk result (row_in row.new ≡ rows.row Rule.Elements class) }
{
    level_row(row, 1, class)?;
    before(row, &[part(Rule::MoreElements)])?;
    or_skips(row, &[Change::Absent, Change::Absent])
}

/// `{"," expr} ["..."] [","]`
pub fn more_elements_row(row: &mut RowBuffer, class: Class) -> Result<(), AllocError>
    ensures { OnOk result (row_in row.new ≡ rows.more_elements_row class) }
{
    match class {
        Class::Sign(Sign::Comma) => uses(
            row,
            &[Change::Open, Change::Absent, Change::Open],
            &[part(Rule::BehindElementComma)],
        ),
        Class::Sign(Sign::Dots) => uses(row, &[Change::Mark(Kind::Dots)], &[part(Rule::LastComma)]),
        _ => skips(row, &[Change::Absent, Change::Absent]),
    }
}

/// The next element, or the end behind a trailing comma.
pub fn behind_element_comma_row(row: &mut RowBuffer, class: Class) -> Result<(), AllocError>
    ensures { OnOk result (row_in row.new ≡ rows.behind_element_comma_row class) }
{
    level_row(row, 1, class)?;
    before(row, &[part(Rule::MoreElements)])?;
    led_by(row, &[Change::Drop, Change::Drop])?;
    or_skips(row, &[Change::Close(Kind::TrailingComma), Change::Lift])
}

/// `[","]`
pub fn last_comma_row(row: &mut RowBuffer, class: Class) -> Result<(), AllocError>
    ensures { OnOk result (row_in row.new ≡ rows.last_comma_row class) }
{
    match class {
        Class::Sign(Sign::Comma) => uses(row, &[Change::Mark(Kind::TrailingComma)], &[]),
        _ => skips(row, &[Change::Absent]),
    }
}
