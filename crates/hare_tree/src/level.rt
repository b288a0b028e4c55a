//! Operators, and how tightly expressions bind.

ghost use Rattle.std.specs.Prelude.{◌≡◌, ◌≤◌, map};
ghost use Rattle.hare_tree.specs.Words as words;
ghost use Rattle.hare_tree.specs.Levels as levels;

use crate::kind::Kind;
use crate::name::is_listed;

const ARITH: [&[u8]; 8] = [b"*", b"/", b"%", b"+", b"-", b"&", b"^", b"|"];

const TIMES: [&[u8]; 3] = [b"*", b"/", b"%"];

const PLUS: [&[u8]; 2] = [b"+", b"-"];

const SHIFT: [&[u8]; 2] = [b"<<", b">>"];

const LESS: [&[u8]; 4] = [b"<", b"<=", b">", b">="];

const EQUAL: [&[u8]; 2] = [b"==", b"!="];

const LOGIC: [&[u8]; 3] = [b"&&", b"^^", b"||"];

const ASSIGN: [&[u8]; 10] = [
    b"+=", b"-=", b"*=", b"/=", b"%=", b"<<=", b">>=", b"&=", b"|=", b"^=",
];

/// Whether a text is an operator of the kind.
pub fn is_operator_of(k: Kind, x: &[u8]) -> bool
    ensures { result ≡ words.is_listed (levels.operators k) x.now }
{
    match k {
        Kind::Arith => is_listed(&ARITH, x),
        Kind::Shift => is_listed(&SHIFT, x),
        Kind::Less => is_listed(&LESS, x),
        Kind::Equal => is_listed(&EQUAL, x),
        Kind::Logic => is_listed(&LOGIC, x),
        Kind::OpAssign => is_listed(&ASSIGN, x),
        _ => false,
    }
}

/// How tightly a binary operator binds: 12 for `*` down to 2 for `||`.
pub fn operator_level(x: &[u8]) -> u8
    ensures value { result ≡ levels.operator_level x.now }
    ensures within { result ≤ 16 }
{
    if is_listed(&TIMES, x) {
        12
    } else if is_listed(&PLUS, x) {
        11
    } else if is_listed(&SHIFT, x) {
        10
    } else if x == b"&".as_slice() {
        9
    } else if x == b"^".as_slice() {
        8
    } else if x == b"|".as_slice() {
        7
    } else if is_listed(&LESS, x) {
        6
    } else if is_listed(&EQUAL, x) {
        5
    } else if x == b"&&".as_slice() {
        4
    } else if x == b"^^".as_slice() {
        3
    } else {
        2
    }
}

/// How tightly an expression binds, from 16 for what is whole by itself down to 1, and 0 for what is none.
pub fn level(k: Kind, x: &[u8]) -> u8
    ensures value { result ≡ levels.level k x.now }
    ensures within { result ≤ 16 }
{
    match k {
        Kind::Assign
        | Kind::OpAssign
        | Kind::If
        | Kind::For
        | Kind::ForEach
        | Kind::Break
        | Kind::Continue
        | Kind::Return
        | Kind::Yield => 1,
        Kind::Arith | Kind::Shift | Kind::Less | Kind::Equal | Kind::Logic => operator_level(x),
        Kind::Cast | Kind::As | Kind::Is => 13,
        Kind::Neg | Kind::Not | Kind::Bang | Kind::Deref | Kind::Addr => 14,
        Kind::Try | Kind::Force | Kind::Index | Kind::Call | Kind::Slice | Kind::Field => 15,
        Kind::Number
        | Kind::RuneLit
        | Kind::Str
        | Kind::Bool
        | Kind::Null
        | Kind::Void
        | Kind::Path
        | Kind::Paren
        | Kind::Free
        | Kind::Delete
        | Kind::Len
        | Kind::Offset
        | Kind::Size
        | Kind::Align
        | Kind::StructLit
        | Kind::Tuple
        | Kind::Array
        | Kind::Alloc
        | Kind::Append
        | Kind::Abort
        | Kind::Assert
        | Kind::Block
        | Kind::Match
        | Kind::Switch => 16,
        _ => 0,
    }
}
