//! Operators on whole numbers without a suffix. They are exact, from -2^127 to 2^127 - 1.

ghost use Rattle.std.specs.Prelude.{◌≡◌, ◌<◌, ◌^◌, ◌*ℤ◌, int_rem, pos, IfSome, Some};
ghost use Rattle.hare_rules.specs.Exact as spec;
ghost use Rattle.hare_rules.specs.Operators as operators;
ghost use Rattle.rule_ops.specs.Signs as signs;

use hare_tree::Kind;
use hare_types::Ty;

/// The remainder, which has the sign of the dividend; none by 0. That of the least number by -1 is 0.
fn remainder(a: i128, b: i128) -> Option<i128>
    ensures { result ≡ spec.unless_zero b (Some (int_rem a b)) }
{
    if b == -1 {
        return Some(0);
    }
    a.checked_rem(b)
}

/// A shift amount, from 0 to 127.
fn amount(b: i128) -> Option<u32>
    ensures value { result ≡ spec.amount b }
    ensures small { IfSome result (λ n. n < 128) }
{
    if 0 <= b && b < 128 {
        Some(b as u32)
    } else {
        None
    }
}

/// The number shifted to the left by 127, where no bit is lost.
fn shift_most(a: i128) -> Option<i128>
    ensures { result ≡ spec.ranged (a *ℤ pos (2 ^ 127)) }
{
    match a {
        0 => Some(0),
        -1 => Some(i128::MIN),
        _ => None,
    }
}

/// The number shifted to the left, where no bit is lost.
fn shift_left(a: i128, n: u32) -> Option<i128>
    requires { n < 128 }
    ensures { result ≡ spec.ranged (a *ℤ pos (2 ^ n)) }
{
    if n < 127 {
        a.checked_mul(2i128.pow(n))
    } else {
        shift_most(a)
    }
}

/// An operator on two whole numbers.
#[derive(Clone, Copy)]
enum Operator {
    Sum,
    Difference,
    Product,
    Quotient,
    Remainder,
    And,
    Or,
    Xor,
    Left,
    Right,
}

/// What the operator `+ - * / % & ^ |` is that is written by this sign.
fn arithmetic_operator(sign: &[u8]) -> Option<Operator>
    ensures { result ≡ signs.operator_from sign.now signs.arithmetic_signs }
{
    match sign {
        b"+" => Some(Operator::Sum),
        b"-" => Some(Operator::Difference),
        b"*" => Some(Operator::Product),
        b"/" => Some(Operator::Quotient),
        b"%" => Some(Operator::Remainder),
        b"&" => Some(Operator::And),
        b"|" => Some(Operator::Or),
        b"^" => Some(Operator::Xor),
        _ => None,
    }
}

/// Which of `<<` and `>>` is written by this sign.
fn shift_operator(sign: &[u8]) -> Option<Operator>
    ensures { result ≡ signs.operator_from sign.now signs.shift_signs }
{
    match sign {
        b"<<" => Some(Operator::Left),
        b">>" => Some(Operator::Right),
        _ => None,
    }
}

/// The operator of a node of this kind that is written by this sign.
fn operator_of(k: Kind, sign: &[u8]) -> Option<Operator>
    ensures { result ≡ signs.operator_of k sign.now }
{
    match k {
        Kind::Shift => shift_operator(sign),
        _ => arithmetic_operator(sign),
    }
}

/// The result of an operator.
fn applied(operator: Operator, a: i128, b: i128) -> Option<i128>
    ensures { result ≡ signs.applied operator a b }
{
    match operator {
        Operator::Sum => a.checked_add(b),
        Operator::Difference => a.checked_sub(b),
        Operator::Product => a.checked_mul(b),
        Operator::Quotient => a.checked_div(b),
        Operator::Remainder => remainder(a, b),
        Operator::And => Some(a & b),
        Operator::Or => Some(a | b),
        Operator::Xor => Some(a ^ b),
        Operator::Left => match amount(b) {
            Some(n) => shift_left(a, n),
            None => None,
        },
        Operator::Right => match amount(b) {
            Some(n) => Some(a >> n),
            None => None,
        },
    }
}

/// The result of a binary operator, where both operands are whole numbers without a suffix.
pub(crate) fn exact_of(k: Kind, sign: &[u8], a: &Ty, b: &Ty) -> Option<i128>
    ensures { result ≡ spec.exact_of k sign.now a.now b.now }
{
    let Ty::Iconst(x) = a else {
        return None;
    };
    let Ty::Iconst(y) = b else {
        return None;
    };
    match operator_of(k, sign) {
        Some(operator) => applied(operator, *x, *y),
        None => None,
    }
}

/// The result of `-` and `~` on a whole number without a suffix.
pub(crate) fn unary(k: Kind, v: i128) -> Option<i128>
    ensures { result ≡ operators.unary k v }
{
    if k == Kind::Neg {
        v.checked_neg()
    } else {
        Some(!v)
    }
}
