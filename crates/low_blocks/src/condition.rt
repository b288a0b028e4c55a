//! The code of conditions.

ghost use Rattle.std.specs.Prelude.{◌≡◌, IfOk};
ghost use Rattle.flat_code.specs.Shape.{code_of};
ghost use Rattle.hare_blocks.specs.Shape.{relation_of, condition_of};
ghost use Rattle.low_blocks.specs.Expressions.{test, comparison, condition_piece};
ghost use Rattle.low_blocks.specs.Drafts.{piece_of, behind};

use crate::draft::Draft;
use crate::expr::lower_operand;
use flat_code::{Class, Flat, Op, Value};
use hare_blocks::{Condition, Relation, Scope};
use std::alloc::AllocError;

/// The temporary of class w that holds what a comparison gives. It is read at once, so that all comparisons share it.
pub const TEST_TEMP: u32 = 0;

/// Puts the code of a condition at the end, and gives the operand that is not 0 where it holds.
pub fn lower_condition(draft: &mut Draft, scope: &Scope, c: &Condition) -> Result<Value, AllocError>
    ensures { IfOk result (λ v. piece_of draft.new v ≡ behind draft.old.code
        (condition_piece scope.now draft.old.next (condition_of c.now))) }
{
    match c {
        Condition::Always => Ok(Value::Number(1)),
        Condition::Compares {
            left,
            relation,
            right,
        } => {
            let a = lower_operand(draft, scope, left)?;
            let b = lower_operand(draft, scope, right)?;
            draft.push(comparison(*relation, a, b))?;
            Ok(Value::Temp(TEST_TEMP))
        }
    }
}

/// How two operands are compared: where the relation is turned round, so are they.
fn comparison(relation: Relation, a: Value, b: Value) -> Flat
    ensures { code_of result ≡ comparison (relation_of relation) a b }
{
    match relation {
        Relation::Less => test(Op::Cultl, a, b),
        Relation::LessEqual => test(Op::Culel, a, b),
        Relation::Greater => test(Op::Cultl, b, a),
        Relation::GreaterEqual => test(Op::Culel, b, a),
        Relation::Equal => test(Op::Ceql, a, b),
        Relation::Differ => test(Op::Cnel, a, b),
    }
}

/// Sets the temporary of tests to what an operation gives.
fn test(op: Op, a: Value, b: Value) -> Flat
    ensures { code_of result ≡ test op a b }
{
    Flat::Set {
        temp: TEST_TEMP,
        class: Class::W,
        op,
        a,
        b,
    }
}
