//! Rows of the first token of an expression.

ghost use Rattle.std.specs.Prelude.{◌≡◌, OnOk};
ghost use Rattle.hare_automaton.specs.ExpressionRows as rows;
ghost use Rattle.hare_ll_table.specs.Seen.{row_in};

use crate::row::{RowBuffer, Wait, before, faults, leaf, mark, of, opens, part, uses};
use hare_automaton::{Change, Class, Rule, Symbol};
use hare_tree::{Kind, Own, Sign, Sort};
use std::alloc::AllocError;

/// How tightly the expression binds that a token begins, before any operator behind it: from 1 for what is no operand, up to 16.
pub fn start_level(class: Class) -> u8
    ensures { result ≡ rows.start_level class }
{
    match class {
        Class::Sign(
            Sign::If | Sign::For | Sign::Break | Sign::Continue | Sign::Return | Sign::Yield,
        ) => 1,
        Class::Sign(Sign::Minus | Sign::Tilde | Sign::Bang | Sign::Star | Sign::Ampersand) => 14,
        _ => 16,
    }
}

/// The form that a token begins.
pub fn start_row(row: &mut RowBuffer, class: Class) -> Result<(), AllocError>
    ensures { OnOk result (row_in row.new ≡ rows.start_row class) }
{
    match class {
        Class::Name => uses(
            row,
            &[Change::Open, Change::Open, Change::Take],
            &[part(Rule::PathOrStruct)],
        ),
        Class::Number => leaf(row, Kind::Number),
        Class::Rune => leaf(row, Kind::RuneLit),
        Class::Text => leaf(row, Kind::Str),
        Class::Bool => leaf(row, Kind::Bool),
        Class::Sign(sign) => sign_row(row, sign),
        _ => faults(row),
    }
}

/// The form that a keyword or a mark begins.
fn sign_row(row: &mut RowBuffer, sign: Sign) -> Result<(), AllocError>
    ensures { OnOk result (row_in row.new ≡ rows.start_row (Class.Sign sign)) }
{
    match sign {
        Sign::Null => mark(row, Kind::Null),
        Sign::Void => mark(row, Kind::Void),
        Sign::LeftParen => uses(
            row,
            &[Change::Open],
            &[of(Sort::Level(1)), part(Rule::AfterValue)],
        ),
        Sign::LeftBracket => opens(row, Kind::Array),
        Sign::LeftBrace => uses(row, &[Change::Open], &[Wait::Rest(2, Kind::Block)]),
        Sign::Colon => uses(
            row,
            &[Change::Open],
            &[part(Rule::Own(Own::Name)), Wait::Rest(1, Kind::Block)],
        ),
        Sign::Minus => opens(row, Kind::Neg),
        Sign::Tilde => opens(row, Kind::Not),
        Sign::Bang => opens(row, Kind::Bang),
        Sign::Star => opens(row, Kind::Deref),
        Sign::Ampersand => opens(row, Kind::Addr),
        Sign::For => uses(
            row,
            &[Change::Open],
            &[
                part(Rule::Own(Own::Label)),
                Wait::One(Symbol::Want(Sign::LeftParen)),
                part(Rule::ForHead),
            ],
        ),
        Sign::Yield => uses(row, &[Change::Open], &[part(Rule::AfterYield)]),
        Sign::Free => opens(row, Kind::Free),
        Sign::Delete => opens(row, Kind::Delete),
        Sign::Len => opens(row, Kind::Len),
        Sign::Offset => opens(row, Kind::Offset),
        Sign::Size => opens(row, Kind::Size),
        Sign::Align => opens(row, Kind::Align),
        Sign::Alloc => opens(row, Kind::Alloc),
        Sign::Append => opens(row, Kind::Append),
        Sign::Abort => opens(row, Kind::Abort),
        Sign::Assert => opens(row, Kind::Assert),
        Sign::If => opens(row, Kind::If),
        Sign::Break => opens(row, Kind::Break),
        Sign::Continue => opens(row, Kind::Continue),
        Sign::Return => opens(row, Kind::Return),
        Sign::Match => opens(row, Kind::Match),
        Sign::Switch => opens(row, Kind::Switch),
        _ => faults(row),
    }
}

/// An expression that binds at least so tightly as the level.
pub fn level_row(row: &mut RowBuffer, level: u8, class: Class) -> Result<(), AllocError>
    ensures { OnOk result (row_in row.new ≡ rows.level_row level class) }
{
    let start = start_level(class);
    if level <= start {
        start_row(row, class)?;
        before(row, &[part(Rule::Climb(level, start))])
    } else {
        faults(row)
    }
}
