//! The operations that words name.

ghost use Rattle.std.specs.Prelude.{◌≡◌};
ghost use Rattle.il_read.specs.Ops as spec;
ghost use Rattle.il_read.specs.Taken.{Takes};

use crate::front::name_bytes;
use crate::taken::{NotPrinted, Taken};
use il_code::{IlOp, Stop};

/// The operation whose word stands at the front.
#[tactic(auto, unfolding(crate::specs::Ops::op_at))]
pub fn op_at(s: &[u8]) -> Taken<'_, IlOp>
    ensures { Takes result (spec.op_at s.now) }
{
    let (word, rest) = s.split_at(name_bytes(s));
    match op_named(word) {
        Some(op) => Ok((op, rest)),
        None => Err(Stop::Fault(NotPrinted)),
    }
}

// The operation that the word names.
#[tactic(auto, unfolding(crate::specs::Ops::op_named))]
fn op_named(word: &[u8]) -> Option<IlOp>
    ensures { result ≡ spec.op_named word.now }
{
    if let Some(op) = binary_op(word) {
        return Some(op);
    }
    if let Some(op) = unary_op(word) {
        return Some(op);
    }
    if let Some(op) = memory_op(word) {
        return Some(op);
    }
    if let Some(op) = word_comparison(word) {
        return Some(op);
    }
    long_comparison(word)
}

// Those on one operand that allocate and load.
#[tactic(auto, unfolding(crate::specs::Ops::memory_op))]
fn memory_op(word: &[u8]) -> Option<IlOp>
    ensures { result ≡ spec.memory_op word.now }
{
    if word == b"alloc4".as_slice() {
        Some(IlOp::Alloc4)
    } else if word == b"alloc8".as_slice() {
        Some(IlOp::Alloc8)
    } else if word == b"alloc16".as_slice() {
        Some(IlOp::Alloc16)
    } else if word == b"loadsb".as_slice() {
        Some(IlOp::Loadsb)
    } else if word == b"loadub".as_slice() {
        Some(IlOp::Loadub)
    } else if word == b"loadsh".as_slice() {
        Some(IlOp::Loadsh)
    } else if word == b"loaduh".as_slice() {
        Some(IlOp::Loaduh)
    } else if word == b"loadsw".as_slice() {
        Some(IlOp::Loadsw)
    } else if word == b"loaduw".as_slice() {
        Some(IlOp::Loaduw)
    } else if word == b"loadl".as_slice() {
        Some(IlOp::Loadl)
    } else {
        None
    }
}

// The others on one operand.
#[tactic(auto, unfolding(crate::specs::Ops::unary_op))]
fn unary_op(word: &[u8]) -> Option<IlOp>
    ensures { result ≡ spec.unary_op word.now }
{
    if word == b"neg".as_slice() {
        Some(IlOp::Neg)
    } else if word == b"copy".as_slice() {
        Some(IlOp::Copy)
    } else if word == b"extsb".as_slice() {
        Some(IlOp::Extsb)
    } else if word == b"extub".as_slice() {
        Some(IlOp::Extub)
    } else if word == b"extsh".as_slice() {
        Some(IlOp::Extsh)
    } else if word == b"extuh".as_slice() {
        Some(IlOp::Extuh)
    } else if word == b"extsw".as_slice() {
        Some(IlOp::Extsw)
    } else if word == b"extuw".as_slice() {
        Some(IlOp::Extuw)
    } else {
        None
    }
}

// Those on two operands that do not compare.
#[tactic(auto, unfolding(crate::specs::Ops::binary_op))]
fn binary_op(word: &[u8]) -> Option<IlOp>
    ensures { result ≡ spec.binary_op word.now }
{
    if word == b"add".as_slice() {
        Some(IlOp::Add)
    } else if word == b"sub".as_slice() {
        Some(IlOp::Sub)
    } else if word == b"mul".as_slice() {
        Some(IlOp::Mul)
    } else if word == b"div".as_slice() {
        Some(IlOp::Div)
    } else if word == b"rem".as_slice() {
        Some(IlOp::Rem)
    } else if word == b"udiv".as_slice() {
        Some(IlOp::Udiv)
    } else if word == b"urem".as_slice() {
        Some(IlOp::Urem)
    } else if word == b"and".as_slice() {
        Some(IlOp::And)
    } else if word == b"or".as_slice() {
        Some(IlOp::Or)
    } else if word == b"xor".as_slice() {
        Some(IlOp::Xor)
    } else if word == b"shl".as_slice() {
        Some(IlOp::Shl)
    } else if word == b"shr".as_slice() {
        Some(IlOp::Shr)
    } else if word == b"sar".as_slice() {
        Some(IlOp::Sar)
    } else {
        None
    }
}

// Comparisons of words.
#[tactic(auto, unfolding(crate::specs::Ops::word_comparison))]
fn word_comparison(word: &[u8]) -> Option<IlOp>
    ensures { result ≡ spec.word_comparison word.now }
{
    if word == b"ceqw".as_slice() {
        Some(IlOp::Ceqw)
    } else if word == b"cnew".as_slice() {
        Some(IlOp::Cnew)
    } else if word == b"cslew".as_slice() {
        Some(IlOp::Cslew)
    } else if word == b"csltw".as_slice() {
        Some(IlOp::Csltw)
    } else if word == b"csgew".as_slice() {
        Some(IlOp::Csgew)
    } else if word == b"csgtw".as_slice() {
        Some(IlOp::Csgtw)
    } else if word == b"culew".as_slice() {
        Some(IlOp::Culew)
    } else if word == b"cultw".as_slice() {
        Some(IlOp::Cultw)
    } else if word == b"cugew".as_slice() {
        Some(IlOp::Cugew)
    } else if word == b"cugtw".as_slice() {
        Some(IlOp::Cugtw)
    } else {
        None
    }
}

// Comparisons of longs.
#[tactic(auto, unfolding(crate::specs::Ops::long_comparison))]
fn long_comparison(word: &[u8]) -> Option<IlOp>
    ensures { result ≡ spec.long_comparison word.now }
{
    if word == b"ceql".as_slice() {
        Some(IlOp::Ceql)
    } else if word == b"cnel".as_slice() {
        Some(IlOp::Cnel)
    } else if word == b"cslel".as_slice() {
        Some(IlOp::Cslel)
    } else if word == b"csltl".as_slice() {
        Some(IlOp::Csltl)
    } else if word == b"csgel".as_slice() {
        Some(IlOp::Csgel)
    } else if word == b"csgtl".as_slice() {
        Some(IlOp::Csgtl)
    } else if word == b"culel".as_slice() {
        Some(IlOp::Culel)
    } else if word == b"cultl".as_slice() {
        Some(IlOp::Cultl)
    } else if word == b"cugel".as_slice() {
        Some(IlOp::Cugel)
    } else if word == b"cugtl".as_slice() {
        Some(IlOp::Cugtl)
    } else {
        None
    }
}
