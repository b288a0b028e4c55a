//! Types that are words, and names of types.

ghost use Rattle.std.specs.Prelude.{◌≡◌, IfOk, IsSome, Some, true};
ghost use Rattle.hare_tree.specs.declared.kind.Kind.TheVariants as ki;
ghost use Rattle.hare_tree.specs.Shape.{scalars};
ghost use Rattle.hare_tree.specs.Words.{is_listed};
ghost use Rattle.hare_rules.specs.Types.{word_in, written_words};
ghost use Rattle.rule_judge.specs.Defined.{IsDefined};
ghost use Rattle.rule_types.specs.Grown.{IsGrown};
ghost use Rattle.rule_types.specs.Known.{IsTypeMeant, IsDefinedMeaning};
ghost use Rattle.rule_types.specs.Answers.{IsOwnType};
ghost use Rattle.rule_types.specs.Contexts.{head_in};
ghost use Rattle.rule_types.specs.Words.{other_words, scalar_words, plain_words, unsigned_words, integer_words};

use crate::made::entered;
use crate::written::Written;
use hare_tree::Meaning;
use hare_types::{Row, Scalar, TypeId, TypeStore};
use std::alloc::AllocError;

/// The word of an integer type whose width is not in its name.
fn plain_in(text: &[u8]) -> Option<Scalar>
    ensures { result ≡ word_in plain_words text.now }
{
    if text == b"int".as_slice() {
        return Some(Scalar::Int);
    }
    if text == b"uint".as_slice() {
        return Some(Scalar::Uint);
    }
    if text == b"size".as_slice() {
        return Some(Scalar::Size);
    }
    None
}

/// The word of an integer type without a sign, or of one whose width is not in its name.
fn unsigned_in(text: &[u8]) -> Option<Scalar>
    ensures { result ≡ word_in unsigned_words text.now }
{
    if text == b"u8".as_slice() {
        return Some(Scalar::U8);
    }
    if text == b"u16".as_slice() {
        return Some(Scalar::U16);
    }
    if text == b"u32".as_slice() {
        return Some(Scalar::U32);
    }
    if text == b"u64".as_slice() {
        return Some(Scalar::U64);
    }
    plain_in(text)
}

/// The word of an integer type.
fn integer_in(text: &[u8]) -> Option<Scalar>
    ensures { result ≡ word_in integer_words text.now }
{
    if text == b"i8".as_slice() {
        return Some(Scalar::I8);
    }
    if text == b"i16".as_slice() {
        return Some(Scalar::I16);
    }
    if text == b"i32".as_slice() {
        return Some(Scalar::I32);
    }
    if text == b"i64".as_slice() {
        return Some(Scalar::I64);
    }
    unsigned_in(text)
}

/// The word of `bool`, `rune`, `str` or an integer type.
fn scalar_in(text: &[u8]) -> Option<Scalar>
    ensures { result ≡ word_in scalar_words text.now }
{
    if text == b"bool".as_slice() {
        return Some(Scalar::Bool);
    }
    if text == b"rune".as_slice() {
        return Some(Scalar::Rune);
    }
    if text == b"str".as_slice() {
        return Some(Scalar::Str);
    }
    integer_in(text)
}

/// The word that is a type, but for `void`.
fn other_in(text: &[u8]) -> Option<Scalar>
    ensures { result ≡ word_in other_words text.now }
{
    if text == b"never".as_slice() {
        return Some(Scalar::Never);
    }
    if text == b"opaque".as_slice() {
        return Some(Scalar::Opaque);
    }
    scalar_in(text)
}

/// The word that is a type.
fn word_written(text: &[u8]) -> Option<Scalar>
    ensures { result ≡ word_in written_words text.now }
{
    if text == b"void".as_slice() {
        return Some(Scalar::Void);
    }
    other_in(text)
}

/// A type that is a word.
pub(crate) fn scalar(s: &mut TypeStore, t: &Written<'_>) -> Result<TypeId, AllocError>
    requires { is_listed scalars (head_in t.now).text ≡ true }
    ensures ok { IfOk result (IsOwnType s.new t.now ki.TypeScalar) }
    ensures defined { IfOk result (IsDefined s.new) }
    ensures grown { IsGrown s.old s.new }
{
    let node = t.node;
    match word_written(node.text.bytes()) {
        Some(k) => entered(s, Row::Scalar(k)),
        None => unreachable!(),
    }
}

/// A name of a type.
pub(crate) fn path(s: &mut TypeStore, t: &Written<'_>) -> Result<TypeId, AllocError>
    requires { IsTypeMeant s.old t.now.meaning }
    ensures ok { IfOk result (IsOwnType s.new t.now ki.TypePath) }
    ensures defined { IfOk result (λ u. IsDefinedMeaning s.old t.now.meaning → IsDefined s.new u) }
    ensures grown { IsGrown s.old s.new }
{
    let _law = s.declarations();
    match t.meaning {
        Meaning::Decl(n) => {
            let made = entered(s, Row::Named(n))?;
            Ok(made)
        }
        Meaning::Local(_) | Meaning::Rt(_) | Meaning::None => unreachable!(),
    }
}
