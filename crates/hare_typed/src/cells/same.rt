//! Whether two lists of cells are the same. What is repeated in both is gone past at once.

ghost use Rattle.std.specs.Prelude.{◌≡◌, ◌↔◌, ◌<◌, ◌≤◌, IsTrue, List, length, IfSome};
ghost use Rattle.hare_typed.specs.declared.cell.Cell.{Cell as CellValue};
ghost use Rattle.hare_typed.specs.Repeats.{repeated, with_repeat, FitIn, IsAround, Recurs, AgreeTo};

use crate::cell::Cell;
use crate::cells::{Cells, Repeat};

/// The cells from one place up to another, each of which is the one that stands so many places before it.
#[derive(Clone, Copy, Debug, PartialEq, Eq)]
struct Stretch {
    begin: usize,
    end: usize,
    distance: usize,
}

/// The copies that a repetition made, as far as they stand before the end, where the place is one of theirs.
fn copies_at(r: Repeat, place: usize, end: usize) -> Option<Stretch>
    requires proper { r.from < r.to }
    requires behind { r.to ≤ place }
    ensures within { IfSome result (λ s. s.end ≤ end) }
    ensures around { IfSome result (IsAround place) }
    ensures recurs { IfSome result (λ s. (cs : List CellValue) → r.to ≤ length cs → Recurs s (with_repeat r cs)) }
{
    let distance = r.to - r.from;
    let copied = distance.checked_mul(r.more)?;
    let last = r.to.checked_add(copied)?;
    let end = end.min(last);
    if end <= place {
        return None;
    }
    Some(Stretch {
        begin: r.to,
        end,
        distance,
    })
}

/// A stretch of the cells behind all repetitions that holds the place; none where the place is in no copy.
fn stretch_at(repeats: &[Repeat], place: usize, count: usize) -> Option<Stretch>
    requires fit { (cs : List CellValue) × FitIn repeats.now cs }
    requires within { place < count }
    ensures around { IfSome result (IsAround place) }
    ensures recurs { IfSome result (λ s. (cs : List CellValue) → FitIn repeats.now cs → Recurs s (repeated repeats.now cs)) }
{
    let mut end = count;
    let mut left = repeats.len();
    while left > 0 {
        left -= 1;
        let r = repeats[left];
        if r.to <= place {
            return copies_at(r, place, end);
        }
        end = end.min(r.to);
    }
    None
}

/// How far two lists are the same that are the same before the place, which is in these stretches of them. Two stretches of one distance
/// go on alike; of two distances they do once both have been alike for the other's.
fn alike_to(left: Stretch, right: Stretch, place: usize) -> usize
    requires left { IsAround place left }
    requires right { IsAround place right }
    ensures { (cs ds : List CellValue) → Recurs left cs → Recurs right ds → AgreeTo place cs ds → AgreeTo result cs ds }
{
    if left.distance == right.distance {
        return left.end.min(right.end);
    }
    if place - left.begin >= right.distance && place - right.begin >= left.distance {
        return left.end.min(right.end);
    }
    place
}

/// How far two lists of so many cells are the same that are the same before the place, by what is repeated in both.
fn known_to(left: &[Repeat], right: &[Repeat], place: usize, count: usize) -> usize
    requires left { (cs : List CellValue) × FitIn left.now cs }
    requires right { (cs : List CellValue) × FitIn right.now cs }
    requires within { place < count }
    ensures { (cs ds : List CellValue) → FitIn left.now cs → FitIn right.now ds → AgreeTo place (repeated left.now cs) (repeated right.now ds) →
        AgreeTo result (repeated left.now cs) (repeated right.now ds) }
{
    match (
        stretch_at(left, place, count),
        stretch_at(right, place, count),
    ) {
        (Some(a), Some(b)) => alike_to(a, b, place),
        _ => place,
    }
}

/// Whether two lists of cells that were written are the same.
fn are_same_cells(left: &[Cell], right: &[Cell]) -> bool
    ensures { IsTrue result ↔ left.now ≡ right.now }
{
    if left.len() != right.len() {
        return false;
    }
    for i in 0..left.len() {
        if left[i] != right[i] {
            return false;
        }
    }
    true
}

/// Whether two lists of repetitions are the same.
fn are_same_repeats(left: &[Repeat], right: &[Repeat]) -> bool
    ensures { IsTrue result ↔ left.now ≡ right.now }
{
    if left.len() != right.len() {
        return false;
    }
    for i in 0..left.len() {
        if left[i] != right[i] {
            return false;
        }
    }
    true
}

impl Cells {
    /// Whether these are the cells of a list of as many. Goes past what is repeated in both.
    fn agrees(&self, other: &Cells) -> bool
        requires { length self.now ≡ length other.now }
        ensures { IsTrue result ↔ self.now ≡ other.now }
    {
        let left = self.repeats.as_slice();
        let right = other.repeats.as_slice();
        let mut place = 0;
        while place < self.count {
            let known = known_to(left, right, place, self.count);
            if place < known {
                place = known;
            } else if self.get(place) == other.get(place) {
                place += 1;
            } else {
                return false;
            }
        }
        true
    }

    /// Whether these are just the cells of `other`, in the same order, however each list keeps them. Takes no memory. Where both keep them
    /// in one way, each kept cell and each repetition is looked at once.
    pub fn is_same(&self, other: &Cells) -> bool
        ensures { IsTrue result ↔ self.now ≡ other.now }
    {
        if self.count != other.count {
            return false;
        }
        if are_same_repeats(self.repeats.as_slice(), other.repeats.as_slice()) {
            return are_same_cells(self.written.as_slice(), other.written.as_slice());
        }
        self.agrees(other)
    }
}
