//! What words say: pointers, and the three words of a text.

ghost use Rattle.std.specs.Prelude.{◌≡◌, ◌≢◌, ◌+◌, ◌≤◌, ℕ, length, true, is_some, Some, IsSome, IfSome, MatchOption};
ghost use Rattle.hare_typed.specs.Answers.{Gives, ◌then◌};
ghost use Rattle.hare_typed.specs.Cells as cells_of;
ghost use Rattle.hare_typed.specs.Cells.{cells_within};
ghost use Rattle.hare_typed.specs.Scalars.{Address, Pointing, Nullable, Reference, spelled};
ghost use Rattle.hare_typed.specs.Words as spec;

use crate::number::little_endian;
use hare_typed::{Cell, Cells};

/// How many cells a word has.
const WORD: usize = 8;

/// Whether cells are the fragments of the pointer to an offset of an object from the one with this place on, in order.
fn are_fragments(object: u64, offset: u64, place: u32, cells: &[Cell]) -> bool
    requires { place + length cells.now ≤ 8 }
    ensures { result ≡ cells_of.are_fragments object offset place cells.now }
{
    let Some((first, others)) = cells.split_first() else {
        return true;
    };
    match *first {
        Cell::Fragment(o, d, k) => {
            object == o
                && (offset == d && place == k)
                && are_fragments(object, offset, place + 1, others)
        }
        Cell::Byte(_) | Cell::Undef => false,
    }
}

/// Whether the cells of a word are a pointer that is not null.
fn is_address(word: &[Cell]) -> bool
    requires { length word.now ≡ 8 }
    ensures { result ≡ is_some (spelled Reference word.now) }
{
    let Some((first, _)) = word.split_first() else {
        return false;
    };
    match *first {
        Cell::Fragment(object, offset, _) => are_fragments(object, offset, 0, word),
        Cell::Byte(_) | Cell::Undef => false,
    }
}

/// Whether the cells of a word are a pointer, null or not.
fn is_pointer(word: &[Cell]) -> bool
    requires { length word.now ≡ 8 }
    ensures { result ≡ is_some (spelled Nullable word.now) }
{
    let Some((first, _)) = word.split_first() else {
        return false;
    };
    match *first {
        Cell::Fragment(object, offset, _) => are_fragments(object, offset, 0, word),
        Cell::Byte(_) | Cell::Undef => match little_endian(word) {
            Some(number) => number == 0,
            None => false,
        },
    }
}

/// Whether a value is a pointer that is not null.
pub(crate) fn is_reference(cells: &Cells) -> bool
    ensures { result ≡ true → IsSome (spelled Reference cells.now) }
{
    let mut word = [Cell::Undef; WORD];
    cells.len() == WORD && cells.read(0, &mut word) && is_address(&word)
}

/// Whether a value is a pointer, null or not.
pub(crate) fn is_nullable(cells: &Cells) -> bool
    ensures { result ≡ true → IsSome (spelled Nullable cells.now) }
{
    let mut word = [Cell::Undef; WORD];
    cells.len() == WORD && cells.read(0, &mut word) && is_pointer(&word)
}

/// The number that the cells of a word are.
fn size_in(word: &[Cell]) -> Option<u64>
    requires { length word.now ≡ 8 }
    ensures { MatchOption result ((n : ℕ) → spec.size_in word.now ≢ Gives n) (λ n. spec.size_in word.now ≡ Gives n) }
{
    little_endian(word)
}

/// Whether a value begins with a pointer, null or not.
fn begins_with_pointer(cells: &Cells) -> bool
    ensures { result ≡ true → IsSome (spelled Nullable (cells_within 0 8 cells.now)) }
{
    let mut word = [Cell::Undef; WORD];
    cells.read(0, &mut word) && is_pointer(&word)
}

/// The number that the word at a place of a value is.
fn size_at(cells: &Cells, at: usize) -> Option<u64>
    ensures { MatchOption result ((n : ℕ) → spec.size_in (cells_within at 8 cells.now) ≢ Gives n)
        (λ n. spec.size_in (cells_within at 8 cells.now) ≡ Gives n) }
{
    let mut word = [Cell::Undef; WORD];
    if cells.read(at, &mut word) {
        size_in(&word)
    } else {
        None
    }
}

/// The length of a text, or of a slice, of its three words; none where the cells are no three words.
pub(crate) fn length_of_text(cells: &Cells) -> Option<u64>
    ensures { IfSome result (λ n. (spec.words cells.now then λ w. Gives w.length) ≡ Gives n) }
{
    if !begins_with_pointer(cells) {
        return None;
    }
    let length = size_at(cells, WORD)?;
    let _capacity = size_at(cells, 2 * WORD)?;
    Some(length)
}

/// What the three words of a text say that is not null.
#[derive(Clone, Copy, Debug, PartialEq, Eq)]
pub(crate) struct Text {
    /// The object that has its bytes.
    pub object: u64,
    /// The offset of the first of them.
    pub offset: u64,
    /// How many they are.
    pub length: u64,
    /// For how many there is room.
    pub capacity: u64,
}

/// The object and the offset to which the first word of cells leads; none where it is no pointer, or null.
fn first_address(cells: &Cells) -> Option<(u64, u64)>
    ensures { MatchOption result ((o d : ℕ) → spelled Nullable (cells_within 0 8 cells.now) ≢ Some (Pointing (Address o d)))
        (λ p. spelled Nullable (cells_within 0 8 cells.now) ≡ Some (Pointing (Address p.0 p.1))) }
{
    let mut word = [Cell::Undef; WORD];
    if !cells.read(0, &mut word) {
        return None;
    }
    let (first, _) = word.split_first()?;
    match *first {
        Cell::Fragment(object, offset, _) => {
            if are_fragments(object, offset, 0, &word) {
                Some((object, offset))
            } else {
                None
            }
        }
        Cell::Byte(_) | Cell::Undef => None,
    }
}

/// What the three words of a text say; none where the cells are no three words, or where the pointer is null.
pub(crate) fn text_words(cells: &Cells) -> Option<Text>
    ensures { MatchOption result ((w : spec.Words) (o d : ℕ) → spec.words cells.now ≡ Gives w → w.data_at ≢ Address o d)
        (λ x. spec.words cells.now ≡ Gives
        (record { data_at = Address x.object x.offset; length = x.length; capacity = x.capacity })) }
{
    let (object, offset) = first_address(cells)?;
    let length = size_at(cells, WORD)?;
    match size_at(cells, 2 * WORD) {
        Some(capacity) => Some(Text {
            object,
            offset,
            length,
            capacity,
        }),
        None => None,
    }
}
