//! Operators on the numbers and the bools of constants.

ghost use Rattle.std.specs.Prelude.{◌≡◌, ◌<◌, ◌^◌, ◌*ℤ◌};
ghost use Rattle.hx_base.specs.Numbers.{residue};
ghost use Rattle.hare_typed.specs.Arithmetic as spec;
ghost use Rattle.hare_typed.specs.Settled.{IsWidth};
ghost use Rattle.hare_const.specs.Operators.{int_of, arithmetic_of, shift_of, order_of, logic_of, answer_of, IsWhole};

use hx_base::wrap;

/// An integer type of 1 to 64 bits.
#[derive(Clone, Copy, Debug, PartialEq, Eq)]
pub struct IntType {
    /// How many bits it has.
    pub bits: u32,
    /// Whether it has a sign.
    pub signed: bool,
}

/// An operator that makes a number of two.
#[derive(Clone, Copy, Debug, PartialEq, Eq)]
pub enum Arithmetic {
    /// The sum.
    Add,
    /// The difference.
    Subtract,
    /// The product.
    Multiply,
    /// The quotient, rounded toward zero.
    Divide,
    /// What division leaves, with the sign of the dividend.
    Remainder,
    /// The bits that both have.
    BitAnd,
    /// The bits that one has.
    BitXor,
    /// The bits that one or both have.
    BitOr,
}

/// The way in which bits are shifted.
#[derive(Clone, Copy, Debug, PartialEq, Eq)]
pub enum Shift {
    /// Toward the high bits.
    Left,
    /// Toward the low bits: the sign stays.
    Right,
}

/// A comparison by order.
#[derive(Clone, Copy, Debug, PartialEq, Eq)]
pub enum Order {
    /// Less.
    Below,
    /// Less, or equal.
    AtMost,
    /// Greater.
    Above,
    /// Greater, or equal.
    AtLeast,
}

/// An operator on two bools.
#[derive(Clone, Copy, Debug, PartialEq, Eq)]
pub enum Logic {
    /// Whether both hold. The right one is not evaluated where the left one does not hold.
    Both,
    /// Whether one or both hold. The right one is not evaluated where the left one holds.
    Either,
    /// Whether just one holds.
    One,
}

impl Arithmetic {
    /// The operator with this sign: one of `+ - * / % & ^ |`.
    pub fn of_sign(sign: &[u8]) -> Arithmetic
        ensures { arithmetic_of result ≡ spec.arithmetic_of sign.now }
    {
        match sign {
            b"+" => Arithmetic::Add,
            b"-" => Arithmetic::Subtract,
            b"*" => Arithmetic::Multiply,
            b"/" => Arithmetic::Divide,
            b"%" => Arithmetic::Remainder,
            b"&" => Arithmetic::BitAnd,
            b"^" => Arithmetic::BitXor,
            _ => Arithmetic::BitOr,
        }
    }
}

impl Shift {
    /// The way of this sign: `<<` or `>>`.
    pub fn of_sign(sign: &[u8]) -> Shift
        ensures { shift_of result ≡ spec.shift_of sign.now }
    {
        match sign {
            b"<<" => Shift::Left,
            _ => Shift::Right,
        }
    }
}

impl Order {
    /// The comparison of this sign: `<`, `<=`, `>` or `>=`.
    pub fn of_sign(sign: &[u8]) -> Order
        ensures { order_of result ≡ spec.order_of sign.now }
    {
        match sign {
            b"<" => Order::Below,
            b"<=" => Order::AtMost,
            b">" => Order::Above,
            _ => Order::AtLeast,
        }
    }
}

impl Logic {
    /// The operator of this sign: `&&`, `||` or `^^`.
    pub fn of_sign(sign: &[u8]) -> Logic
        ensures { logic_of result ≡ spec.logic_of sign.now }
    {
        match sign {
            b"&&" => Logic::Both,
            b"||" => Logic::Either,
            _ => Logic::One,
        }
    }
}

/// The bits of a number in two's complement.
fn bits_of(t: IntType, v: i128) -> u64
    requires { IsWidth t.bits }
    ensures { result ≡ spec.bits_of (int_of t) v }
{
    wrap(v, t.bits, false) as u64
}

/// A number cut to the bits of a type.
fn cut(t: IntType, v: i128) -> i128
    requires { IsWidth t.bits }
    ensures { result ≡ spec.cut (int_of t) v }
{
    wrap(v, t.bits, t.signed)
}

/// The product, cut to the bits of a type. That of two numbers of 64 bits without a sign has 128 bits.
fn product(t: IntType, x: i128, y: i128) -> i128
    requires width { IsWidth t.bits }
    requires left { IsWhole x }
    requires right { IsWhole y }
    ensures { result ≡ spec.cut (int_of t) (x *ℤ y) }
{
    if x >= 0 && y >= 0 {
        let rest = x as u128 * y as u128 % (1u128 << t.bits);
        cut(t, rest as i128)
    } else {
        cut(t, x * y)
    }
}

/// The quotient, cut to the bits of a type; none where the divisor is zero.
fn quotient(t: IntType, x: i128, y: i128) -> Option<i128>
    requires width { IsWidth t.bits }
    requires left { IsWhole x }
    requires right { IsWhole y }
    ensures { answer_of result ≡ spec.arithmetic spec.Divide (int_of t) x y }
{
    if y == 0 {
        return None;
    }
    Some(cut(t, x / y))
}

/// What division leaves, cut to the bits of a type; none where the divisor is zero.
fn remainder(t: IntType, x: i128, y: i128) -> Option<i128>
    requires width { IsWidth t.bits }
    requires left { IsWhole x }
    requires right { IsWhole y }
    ensures { answer_of result ≡ spec.arithmetic spec.Remainder (int_of t) x y }
{
    if y == 0 {
        return None;
    }
    Some(cut(t, x % y))
}

/// What an operator makes of two numbers of integer types, cut to the bits of a type; none where the divisor is zero. The type has 1 to 64
/// bits, and both numbers are from - 2^63 to 2^64 - 1, so that some integer type has each.
pub fn computed(op: Arithmetic, t: IntType, x: i128, y: i128) -> Option<i128>
    requires width { IsWidth t.bits }
    requires left { IsWhole x }
    requires right { IsWhole y }
    ensures { answer_of result ≡ spec.arithmetic (arithmetic_of op) (int_of t) x y }
{
    match op {
        Arithmetic::Add => Some(cut(t, x + y)),
        Arithmetic::Subtract => Some(cut(t, x - y)),
        Arithmetic::Multiply => Some(product(t, x, y)),
        Arithmetic::Divide => quotient(t, x, y),
        Arithmetic::Remainder => remainder(t, x, y),
        Arithmetic::BitAnd => Some(cut(t, i128::from(bits_of(t, x) & bits_of(t, y)))),
        Arithmetic::BitXor => Some(cut(t, i128::from(bits_of(t, x) ^ bits_of(t, y)))),
        Arithmetic::BitOr => Some(cut(t, i128::from(bits_of(t, x) | bits_of(t, y)))),
    }
}

/// The number with the other sign, cut to the bits of a type. The type has 1 to 64 bits, and the number is from - 2^63 to 2^64 - 1.
pub fn negated(t: IntType, x: i128) -> i128
    requires width { IsWidth t.bits }
    requires operand { IsWhole x }
    ensures { result ≡ spec.negated (int_of t) x }
{
    cut(t, -x)
}

/// The number whose bits are those that this one has not, cut to the bits of a type. The type has 1 to 64 bits, and the number is from
/// - 2^63 to 2^64 - 1.
pub fn complemented(t: IntType, x: i128) -> i128
    requires width { IsWidth t.bits }
    requires operand { IsWhole x }
    ensures { result ≡ spec.complemented (int_of t) x }
{
    cut(t, 0 - x - 1)
}

/// By how many bits is shifted: the amount modulo the bits of the type.
fn distance(t: IntType, amount: i128) -> u32
    requires { IsWidth t.bits }
    ensures value { result ≡ residue t.bits amount }
    ensures short { result < t.bits }
{
    amount.rem_euclid(i128::from(t.bits)) as u32
}

/// The number with its bits shifted, cut to the bits of a type. The amount counts modulo these. The type has 1 to 64 bits, the number is
/// from - 2^63 to 2^64 - 1, and the amount may be any.
pub fn shifted(way: Shift, t: IntType, x: i128, amount: i128) -> i128
    requires width { IsWidth t.bits }
    requires operand { IsWhole x }
    ensures { result ≡ spec.shifted (shift_of way) (int_of t) x amount }
{
    let by = distance(t, amount);
    match way {
        Shift::Left => cut(t, x * 2i128.pow(by)),
        Shift::Right => cut(t, x >> by),
    }
}

/// Whether two numbers stand in an order.
pub fn in_order(order: Order, x: i128, y: i128) -> bool
    ensures { result ≡ spec.in_order (order_of order) x y }
{
    match order {
        Order::Below => x < y,
        Order::AtMost => x <= y,
        Order::Above => x > y,
        Order::AtLeast => x >= y,
    }
}

/// Whether two numbers are equal.
pub fn same_number(x: i128, y: i128) -> bool
    ensures { result ≡ spec.same_number x y }
{
    x <= y && y <= x
}

/// Whether the left operand leaves the answer open, so that the right one is evaluated.
pub fn leaves_open(op: Logic, x: bool) -> bool
    ensures { result ≡ spec.leaves_open (logic_of op) x }
{
    match op {
        Logic::Both => x,
        Logic::Either => !x,
        Logic::One => true,
    }
}

/// What an operator makes of two bools.
pub fn combined(op: Logic, x: bool, y: bool) -> bool
    ensures { result ≡ spec.logic (logic_of op) x y }
{
    match op {
        Logic::Both => x && y,
        Logic::Either => x || y,
        Logic::One => x != y,
    }
}
