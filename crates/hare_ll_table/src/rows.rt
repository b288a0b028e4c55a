//! The whole table: what each rule does at each class of token.

ghost use Rattle.std.specs.Prelude.{◌≡◌, IfOk, OnOk};
ghost use Rattle.hare_automaton.specs.Table as table;
ghost use Rattle.hare_ll_table.specs.Seen.{seen, row_in, has_room};

mod declarations;
mod late;
mod lists;
mod operators;
mod sorts;
mod starts;
mod types;

use crate::row::{Row, RowBuffer};
use declarations::{
    after_use_mark_row, after_use_name_row, after_use_part_row, decl_word_row, use_start_row,
};
use hare_automaton::{Class, Rule};
use late::{
    after_for_name_row, after_index_row, after_value_row, after_yield_row, for_head_row,
    in_index_row, path_or_struct_row,
};
use lists::{
    behind_comma_row, behind_element_comma_row, each_followed_row, each_led_row, each_row,
    elements_row, last_comma_row, led_row, list_row, more_elements_row, more_row, optional_row,
    own_row,
};
use operators::climb_row;
use sorts::of_row;
use std::alloc::AllocError;
use types::{after_row, bracket_row, first_row, path_name_row, path_rest_row, spread_row};

/// What a rule does at a class of token, of which a binary operator's level is below 255. An error is want of memory for the buffer.
pub fn row_at(buffer: &mut RowBuffer, rule: Rule, class: Class) -> Result<Row<'_>, AllocError>
    requires { has_room class }
    ensures { IfOk result (λ r. seen r ≡ table.row rule class) }
{
    make_row(buffer, rule, class)?;
    Ok(buffer.row())
}

/// Makes the row of a rule at a class of token.
fn make_row(row: &mut RowBuffer, rule: Rule, class: Class) -> Result<(), AllocError>
    requires { has_room class }
    ensures { OnOk result (row_in row.new ≡ table.row rule class) }
{
    match rule {
        Rule::Of(sort) => of_row(row, sort, class),
        Rule::Own(own) => own_row(row, own, class),
        Rule::Optional(sort) => optional_row(row, sort, class),
        Rule::Led(sign, sort) => led_row(row, sign, sort, class),
        Rule::Each(sort) => each_row(row, sort, class),
        Rule::EachLed(sign, sort) => each_led_row(row, sign, sort, class),
        Rule::EachFollowed(sort, sign) => each_followed_row(row, sort, sign, class),
        Rule::List(sort) => list_row(row, sort, class),
        Rule::More(sort) => more_row(row, sort, class),
        Rule::BehindComma(sort) => behind_comma_row(row, sort, class),
        Rule::Elements => elements_row(row, class),
        Rule::MoreElements => more_elements_row(row, class),
        Rule::BehindElementComma => behind_element_comma_row(row, class),
        Rule::LastComma => last_comma_row(row, class),
        Rule::PathRest(kind) => path_rest_row(row, kind, class),
        Rule::PathOrStruct => path_or_struct_row(row, class),
        Rule::PathName => path_name_row(row, class),
        Rule::InBracket => bracket_row(row, class),
        Rule::FirstMember => first_row(row, class),
        Rule::AfterType => after_row(row, class),
        Rule::AfterSpread => spread_row(row, class),
        Rule::Climb(low, high) => climb_row(row, low, high, class),
        Rule::AfterValue => after_value_row(row, class),
        Rule::InIndex => in_index_row(row, class),
        Rule::AfterIndex => after_index_row(row, class),
        Rule::AfterYield => after_yield_row(row, class),
        Rule::ForHead => for_head_row(row, class),
        Rule::AfterForName => after_for_name_row(row, class),
        Rule::DeclWord => decl_word_row(row, class),
        Rule::UseStart => use_start_row(row, class),
        Rule::AfterUseName => after_use_name_row(row, class),
        Rule::AfterUseMark => after_use_mark_row(row, class),
        Rule::AfterUsePart => after_use_part_row(row, class),
    }
}
