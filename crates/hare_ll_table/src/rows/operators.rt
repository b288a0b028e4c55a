//! Rows of the operators behind an operand.

ghost use Rattle.std.specs.Prelude.{◌≡◌, ◌<◌, OnOk};
ghost use Rattle.hare_automaton.specs.ExpressionRows as rows;
ghost use Rattle.hare_ll_table.specs.Seen.{row_in, has_room};

use crate::row::{RowBuffer, Wait, before, of, part, skips, uses};
use hare_automaton::{Change, Class, Rule, Symbol};
use hare_tree::{Kind, Sign, Sort};
use std::alloc::AllocError;

/// The row of an operator of the level, where those from `low` up to `high` may follow.
fn climbs(row: &mut RowBuffer, low: u8, high: u8, level: u8) -> Result<(), AllocError>
    ensures { OnOk result (row_in row.new ≡ rows.climbs low high level (row_in row.old)) }
{
    if low <= level && level <= high {
        before(row, &[part(Rule::Climb(low, level))])
    } else {
        skips(row, &[])
    }
}

/// The row of an operator of an assignment, whose left side is an operand of a prefix operator or binds more tightly.
fn assigns(row: &mut RowBuffer, low: u8, high: u8) -> Result<(), AllocError>
    ensures { OnOk result (row_in row.new ≡ rows.assigns low high (row_in row.old)) }
{
    if low <= 1 && 14 <= high {
        before(row, &[part(Rule::Climb(low, 1))])
    } else {
        skips(row, &[])
    }
}

/// A form whose first piece is the operand and whose second is the token.
fn behind_operand(row: &mut RowBuffer, kind: Kind) -> Result<(), AllocError>
    ensures { OnOk result (row_in row.new ≡ rows.behind_operand kind) }
{
    uses(row, &[Change::Over], &[Wait::Rest(2, kind)])
}

/// The kind of the binary operators of a level.
fn binary_kind(level: u8) -> Kind
    ensures { result ≡ rows.binary_kind level }
{
    if level <= 4 {
        Kind::Logic
    } else if level <= 5 {
        Kind::Equal
    } else if level <= 6 {
        Kind::Less
    } else if 10 <= level && level <= 10 {
        Kind::Shift
    } else {
        Kind::Arith
    }
}

/// A binary operator of the level.
fn binary_at(row: &mut RowBuffer, level: u8) -> Result<(), AllocError>
    requires { level < 255 }
    ensures { OnOk result (row_in row.new ≡ rows.binary_at level) }
{
    uses(
        row,
        &[Change::Over, Change::Take],
        &[
            of(Sort::Level(level + 1)),
            Wait::One(Symbol::Close(binary_kind(level))),
        ],
    )
}

/// A binary operator of the level, where those from `low` up to `high` may follow.
fn binary(row: &mut RowBuffer, low: u8, high: u8, level: u8) -> Result<(), AllocError>
    requires { level < 255 }
    ensures { OnOk result (row_in row.new ≡ rows.climbs low high level (rows.binary_at level)) }
{
    binary_at(row, level)?;
    climbs(row, low, high, level)
}

/// A form of the level behind an operand, where those from `low` up to `high` may follow.
fn postfix(row: &mut RowBuffer, low: u8, high: u8, level: u8, kind: Kind) -> Result<(), AllocError>
    ensures { OnOk result (row_in row.new ≡ rows.climbs low high level (rows.behind_operand kind)) }
{
    behind_operand(row, kind)?;
    climbs(row, low, high, level)
}

/// The operators of the levels from `low` up to `high`, and what stands behind them.
pub fn climb_row(row: &mut RowBuffer, low: u8, high: u8, class: Class) -> Result<(), AllocError>
    requires { has_room class }
    ensures { OnOk result (row_in row.new ≡ rows.climb_row low high class) }
{
    match class {
        Class::Binary(level) => binary(row, low, high, level),
        Class::OpAssign => {
            let close = Wait::One(Symbol::Close(Kind::OpAssign));
            uses(
                row,
                &[Change::Over, Change::Take],
                &[of(Sort::Level(1)), close],
            )?;
            assigns(row, low, high)
        }
        Class::Sign(sign) => sign_climb_row(row, low, high, sign),
        _ => skips(row, &[]),
    }
}

/// The same at a keyword or a mark.
fn sign_climb_row(row: &mut RowBuffer, low: u8, high: u8, sign: Sign) -> Result<(), AllocError>
    ensures { OnOk result (row_in row.new ≡ rows.climb_row low high (Class.Sign sign)) }
{
    match sign {
        Sign::Equals => {
            behind_operand(row, Kind::Assign)?;
            assigns(row, low, high)
        }
        Sign::Star => binary(row, low, high, 12),
        Sign::Minus => binary(row, low, high, 11),
        Sign::Ampersand => binary(row, low, high, 9),
        Sign::Bar => binary(row, low, high, 7),
        Sign::Colon => postfix(row, low, high, 13, Kind::Cast),
        Sign::As => postfix(row, low, high, 13, Kind::As),
        Sign::Is => postfix(row, low, high, 13, Kind::Is),
        Sign::LeftParen => postfix(row, low, high, 15, Kind::Call),
        Sign::LeftBracket => {
            uses(row, &[Change::Over], &[part(Rule::InIndex)])?;
            climbs(row, low, high, 15)
        }
        Sign::Dot => postfix(row, low, high, 15, Kind::Field),
        Sign::Question => postfix(row, low, high, 15, Kind::Try),
        Sign::Bang => postfix(row, low, high, 15, Kind::Force),
        _ => skips(row, &[]),
    }
}
