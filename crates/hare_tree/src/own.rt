//! What a tree's own text, number and suffix may be.

ghost use Rattle.std.specs.Prelude.{◌≡◌, ◌≤◌, ◌<◌, ◌+◌, ◌^◌, true, false, length, drop, IfSome, nat_lt, MatchOption};
ghost use Rattle.std.specs.List.{slice_range};
ghost use Rattle.hare_tree.specs.Node.{head};
ghost use Rattle.hare_tree.specs.Spell.{parts};
ghost use Rattle.hare_tree.specs.Shape as shape;
ghost use Rattle.hare_tree.specs.Judged.{names_left};

use crate::form::{Own, Piece};
use crate::level::is_operator_of;
use crate::name::{is_listed, is_name};
use crate::text::{byte_at, is_path_mark};
use crate::token::Suffix;
use crate::tree::Tree;

const SCALARS: [&[u8]; 17] = [
    b"i8", b"i16", b"i32", b"i64", b"u8", b"u16", b"u32", b"u64", b"int", b"uint", b"size",
    b"bool", b"rune", b"str", b"void", b"never", b"opaque",
];

const BOOLS: [&[u8]; 2] = [b"true", b"false"];

/// Whether a tree's text, number and suffix are what this own part asks for.
pub fn has_own(own: Own, t: &Tree) -> bool
    ensures { result ≡ shape.is_own own (head t.now) }
{
    let text = t.text.bytes();
    match own {
        Own::Nothing => text.is_empty() && has_text_alone(t),
        Own::Name => is_name(false, text) && has_text_alone(t),
        Own::PathName => is_name(true, text) && has_text_alone(t),
        Own::Path => is_path(text) && has_text_alone(t),
        Own::Label => (text.is_empty() || is_name(false, text)) && has_text_alone(t),
        Own::Scalar => is_listed(&SCALARS, text) && has_text_alone(t),
        Own::Bool => is_listed(&BOOLS, text) && has_text_alone(t),
        Own::Number => is_number(t),
        Own::Rune => is_scalar_value(t.number) && has_no_suffix(t.suffix),
        Own::Text => has_text_alone(t),
        Own::Operator => is_operator_of(t.kind, text) && has_text_alone(t),
        Own::Member => is_number(t) || (is_name(false, text) && has_text_alone(t)),
    }
}

/// What of a form is made from the text, the number and the suffix.
pub fn own_of(form: &[Piece]) -> Own
    ensures { result ≡ shape.own_of form.now }
{
    for piece in form {
        if let Piece::Own(own) = piece {
            return *own;
        }
    }
    Own::Nothing
}

/// Whether a suffix says nothing.
fn has_no_suffix(s: Suffix) -> bool
    ensures { result ≡ shape.has_no_suffix s }
{
    matches!(s, Suffix::None)
}

/// Whether a tree has neither a number nor a suffix.
fn has_text_alone(t: &Tree) -> bool
    ensures { result ≡ shape.has_text_alone (head t.now) }
{
    t.number == 0 && has_no_suffix(t.suffix)
}

/// Whether a tree has a number below 2^127, whose spelling begins with a digit.
fn is_number(t: &Tree) -> bool
    ensures { result ≡ shape.is_number (head t.now) }
{
    byte_at(t.text.bytes(), 0).is_ascii_digit() && is_small(t.number)
}

/// Whether a number is below 2^127.
fn is_small(n: u128) -> bool
    ensures { result ≡ nat_lt n (2 ^ 127) }
{
    n < 0x8000_0000_0000_0000_0000_0000_0000_0000
}

/// Whether a number is a Unicode scalar value.
fn is_scalar_value(n: u128) -> bool
    ensures { result ≡ shape.is_scalar_value n }
{
    n < 0xd800 || (0xe000 <= n && n < 0x110000)
}

// ---- paths

/// How far a path is read: where the part in hand begins, whether it stands behind `::`, and whether the next byte is the second colon of
/// one.
#[derive(Clone, Copy)]
struct Part {
    start: usize,
    behind_path: bool,
    taken: bool,
}

/// Whether a text is names with `::` between them.
fn is_path(text: &[u8]) -> bool
    ensures { result ≡ shape.are_names false (parts text.now) }
{
    let mut part = Part {
        start: 0,
        behind_path: false,
        taken: false,
    };
    for i in 0..text.len() {
        let Some(next) = next_part(text, i, part) else {
            return false;
        };
        part = next;
    }
    is_name(part.behind_path, &text[part.start..text.len()])
}

/// Takes one byte of a path: it goes on with a part, or is the first or the second colon of a `::`. None where the part that ends there is
/// no name.
fn next_part(text: &[u8], i: usize, part: Part) -> Option<Part>
    requires begun { part.start ≤ i }
    requires empty { part.taken ≡ true → part.start ≡ i }
    requires within { i < length text.now }
    ensures value { MatchOption result
        (names_left part.behind_path part.taken (slice_range text.now part.start i) (drop i text.now) ≡ false)
        (λ next. names_left next.behind_path next.taken (slice_range text.now next.start (i + 1)) (drop (i + 1) text.now) ≡ names_left
        part.behind_path part.taken (slice_range text.now part.start i) (drop i text.now)) }
    ensures begun { IfSome result (λ next. next.start ≤ i + 1) }
    ensures empty { IfSome result (λ next. next.taken ≡ true → next.start ≡ i + 1) }
{
    if part.taken {
        return Some(Part {
            start: i + 1,
            behind_path: part.behind_path,
            taken: false,
        });
    }
    if !is_path_mark(text, i) {
        return Some(part);
    }
    if !is_name(part.behind_path, &text[part.start..i]) {
        return None;
    }
    Some(Part {
        start: i + 1,
        behind_path: true,
        taken: true,
    })
}

// ---- leaves

/// Whether a tree has no kids and says nothing but its kind.
pub fn is_bare(t: &Tree) -> bool
    ensures { result ≡ shape.is_leaf (λ k. true) t.now }
{
    t.kids.len() == 0 && has_own(Own::Nothing, t)
}
