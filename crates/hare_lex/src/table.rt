//! The tables of marks and suffixes, and how they are looked up.

ghost use Rattle.std.specs.Prelude.{◌≡◌, ◌≤◌, List, ℕ, [], ◌∷◌, length, map, true, false};
ghost use Rattle.hare_tree.specs.Words.{is_listed, marks};
ghost use Rattle.hare_lex.specs.Lexing.{longest, suffixes, suffix_named};

use crate::bytes::front;
use hare_tree::{Suffix, is_listed};

// The length of the longest mark at the front, 0 where none stands there.
#[tactic(auto, using(crate::proofs::Fronts::Longest::longest_like, crate::proofs::Fronts::ShortMarks::alone), unfolding(crate::specs::Lexing::longest))]
pub fn mark_len(s: &[u8]) -> usize
    ensures value { result ≡ longest marks s.now }
    ensures within { result ≤ length s.now }
{
    match s {
        [first, ..] if begins_alone(*first) => 1,
        [first, second, ..] if begins_mark(*first) && !goes_on(*second) => 1,
        [first, ..] => longest(marks_like(*first), s),
        [] => 0,
    }
}

// Whether a byte is a mark with which no longer one begins.
fn begins_alone(first: u8) -> bool
    ensures mark { result ≡ true → is_listed marks (first ∷ []) ≡ true }
    ensures alone { result ≡ true → (second : ℕ) (rest : List ℕ) → is_listed marks (first ∷ second ∷ rest) ≡ false }
{
    matches!(
        first,
        b'(' | b')' | b',' | b';' | b'?' | b'[' | b']' | b'{' | b'}' | b'~'
    )
}

// Whether a byte is a mark with which longer ones begin.
fn begins_mark(first: u8) -> bool
    ensures { result ≡ true → is_listed marks (first ∷ []) ≡ true }
{
    matches!(
        first,
        b'!' | b'%'
            | b'&'
            | b'*'
            | b'+'
            | b'-'
            | b'.'
            | b'/'
            | b':'
            | b'<'
            | b'='
            | b'>'
            | b'^'
            | b'|'
    )
}

// Whether a byte is the second of a mark.
#[tactic(auto, using(crate::proofs::Fronts::ShortMarks::no_second))]
fn goes_on(second: u8) -> bool
    ensures { result ≡ false → (first : ℕ) (rest : List ℕ) → is_listed marks (first ∷ second ∷ rest) ≡ false }
{
    matches!(
        second,
        b'&' | b'.' | b':' | b'<' | b'=' | b'>' | b'^' | b'|'
    )
}

// The marks that begin with this byte.
fn marks_like(first: u8) -> &'static [&'static [u8]]
    ensures { (rest : List ℕ) → is_listed (map (λ w. w.now) result.now) (first ∷ rest) ≡ is_listed marks (first ∷ rest) }
{
    match first {
        b'!' => &[b"!", b"!="],
        b'%' => &[b"%", b"%="],
        b'&' => &[b"&", b"&=", b"&&"],
        b'(' => &[b"("],
        b')' => &[b")"],
        b'*' => &[b"*", b"*="],
        b'+' => &[b"+", b"+="],
        b',' => &[b","],
        b'-' => &[b"-", b"-="],
        b'.' => &[b".", b"..", b"..."],
        b'/' => &[b"/", b"/="],
        b':' => &[b":", b"::"],
        b';' => &[b";"],
        b'<' => &[b"<", b"<<", b"<<=", b"<="],
        b'=' => &[b"=", b"==", b"=>"],
        b'>' => &[b">", b">=", b">>", b">>="],
        b'?' => &[b"?"],
        b'[' => &[b"["],
        b']' => &[b"]"],
        b'^' => &[b"^", b"^=", b"^^"],
        b'{' => &[b"{"],
        b'|' => &[b"|", b"|=", b"||"],
        b'}' => &[b"}"],
        b'~' => &[b"~"],
        _ => &[],
    }
}

// The length of the longest suffix at the front, 0 where none stands there.
#[tactic(auto, using(crate::proofs::Fronts::Longest::longest_like), unfolding(crate::specs::Lexing::longest))]
pub fn suffix_len(s: &[u8]) -> usize
    ensures value { result ≡ longest suffixes s.now }
    ensures within { result ≤ length s.now }
{
    match s {
        [first, ..] => longest(suffixes_like(*first), s),
        [] => 0,
    }
}

// The suffixes that begin with this byte.
fn suffixes_like(first: u8) -> &'static [&'static [u8]]
    ensures { (rest : List ℕ) → is_listed (map (λ w. w.now) result.now) (first ∷ rest) ≡ is_listed suffixes (first ∷ rest) }
{
    match first {
        b'i' => &[b"i8", b"i16", b"i32", b"i64", b"i"],
        b'u' => &[b"u8", b"u16", b"u32", b"u64", b"u"],
        b'z' => &[b"z"],
        _ => &[],
    }
}

// The length of the longest of the words, of at most three bytes, at the front of the text; 0 where none stands there.
#[tactic(auto, unfolding(crate::specs::Lexing::longest))]
fn longest(words: &[&[u8]], s: &[u8]) -> usize
    ensures value { result ≡ longest (map (λ w. w.now) words.now) s.now }
    ensures within { result ≤ length s.now }
{
    let three = front(s, 3);
    let two = front(s, 2);
    let one = front(s, 1);
    if is_listed(words, three) {
        three.len()
    } else if is_listed(words, two) {
        two.len()
    } else if is_listed(words, one) {
        one.len()
    } else {
        0
    }
}

// The suffix that the word names.
#[tactic(auto, unfolding(crate::specs::Lexing::suffix_named))]
pub fn suffix_named(s: &[u8]) -> Suffix
    ensures { result ≡ suffix_named s.now }
{
    if s == b"i8".as_slice() {
        Suffix::I8
    } else if s == b"i16".as_slice() {
        Suffix::I16
    } else if s == b"i32".as_slice() {
        Suffix::I32
    } else if s == b"i64".as_slice() {
        Suffix::I64
    } else if s == b"u8".as_slice() {
        Suffix::U8
    } else if s == b"u16".as_slice() {
        Suffix::U16
    } else if s == b"u32".as_slice() {
        Suffix::U32
    } else if s == b"u64".as_slice() {
        Suffix::U64
    } else if s == b"i".as_slice() {
        Suffix::I
    } else if s == b"u".as_slice() {
        Suffix::U
    } else if s == b"z".as_slice() {
        Suffix::Z
    } else {
        Suffix::None
    }
}
