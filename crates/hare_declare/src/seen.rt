//! What the text of a type says of its size.

ghost use Rattle.std.specs.Prelude.{◌≡◌};
ghost use Rattle.hare_names.specs.Answers.{meaning_in};
ghost use Rattle.hare_modules.specs.Uses as uses;
ghost use Rattle.hare_declare.specs.Outlines as spec;

use crate::outline::SizeSeen;
use hare_names::Names;
use hare_tree::{Kind, Meaning, Tree};

/// The kid with so many kids before it; a tree that has no such kid stands for it.
pub(crate) fn kid(t: &Tree, i: usize) -> &Tree
    ensures { result.now ≡ uses.kid t.now i }
{
    match t.kids.get(i) {
        Some(k) => k,
        None => t,
    }
}

/// Whether a declaration declares a type.
pub(crate) fn is_type(k: Kind) -> bool
    ensures { result ≡ spec.is_type_kind k }
{
    matches!(k, Kind::TypeDecl)
}

/// What the text of a type says of its size, where there are so many declarations.
pub(crate) fn size_seen(count: usize, names: &Names, t: &Tree) -> SizeSeen
    ensures { result ≡ spec.size_seen count (meaning_in names.now) t.now }
{
    match t.kind {
        Kind::TypeScalar => seen_in_word(t.text.bytes()),
        Kind::TypePath => seen_in_meaning(count, names.meaning(t.place)),
        Kind::TypeError => match t.kids.get(0) {
            Some(marked) => size_seen(count, names, marked),
            None => SizeSeen::Has,
        },
        _ => SizeSeen::Has,
    }
}

/// The same of a type that is written by one word.
fn seen_in_word(word: &[u8]) -> SizeSeen
    ensures { result ≡ spec.seen_in_word word.now }
{
    if word == b"never".as_slice() || word == b"opaque".as_slice() {
        SizeSeen::Lacks
    } else {
        SizeSeen::Has
    }
}

/// The same of a name with this meaning.
fn seen_in_meaning(count: usize, meaning: Meaning) -> SizeSeen
    ensures { result ≡ spec.seen_in_meaning count meaning }
{
    match meaning {
        Meaning::Decl(number) if (number as usize) < count => SizeSeen::ThatOf(number),
        _ => SizeSeen::Has,
    }
}
