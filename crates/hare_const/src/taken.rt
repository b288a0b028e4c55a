//! Which kids of a node are evaluated for its value.

ghost use Rattle.std.specs.Prelude.{◌≡◌, ◌<◌, length};
ghost use Rattle.hare_const.specs.NodeValues.{kid_at as outcome_at};
ghost use Rattle.hare_const.specs.Made as spec;

use crate::calculated::truth;
use crate::operands::Operands;
use crate::operators::{Logic, leaves_open};
use crate::outcome::Outcome;
use hare_typed::Typed;

/// Whether the value of the left operand leaves the answer of a logic operator open.
fn is_open(t: &Typed, first: &Outcome) -> bool
    ensures { result ≡ spec.is_open t.now first.now }
{
    match first {
        Outcome::Known(cells) => leaves_open(Logic::of_sign(t.text.bytes()), truth(cells)),
        Outcome::Aborts | Outcome::Undefined => false,
    }
}

/// Whether the kid with so many before it is evaluated for the value of its node, where the kids up to this one have these values.
pub(crate) fn is_taken(t: &Typed, operands: Operands, values: &[Outcome], i: usize) -> bool
    requires { i < length values.now }
    ensures { result ≡ spec.is_taken t.now operands (outcome_at 0 values.now) i }
{
    match operands {
        Operands::NoKid => false,
        Operands::OneKid => i == 0,
        Operands::TwoKids => i < 2,
        Operands::RightIfOpen => i == 0 || (i == 1 && is_open(t, &values[0])),
        Operands::Components => i < t.kids.len().saturating_sub(1),
        Operands::Fields => 1 <= i && i <= t.kids.len().saturating_sub(2),
        Operands::Elements => i < t.kids.len().saturating_sub(2),
    }
}
