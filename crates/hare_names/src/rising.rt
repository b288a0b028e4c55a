//! Meanings by places, which are put in their order for the most part.

ghost use Rattle.std.specs.Prelude.{◌≡◌, [], IsTrue, OnOk, OnErr};
ghost use Rattle.hare_names.specs.Tables.{meaning_at, put};
ghost use Rattle.hare_lex.specs.Order.{is_before};
ghost use Rattle.hare_names.specs.Keys.{rising_at, IsRising, AreBefore};

use crate::places::Places;
use hare_tree::{Meaning, Place};
use std::alloc::{AllocError, Global};
use std::marker::Model;

// A meaning at a place.
#[derive(Clone, Copy)]
struct Met {
    place: Place,
    meaning: Meaning,
}

/// Meanings by places. A place keeps the first that is put there.
///
/// Those that are put in the order of their places stand in a list, and a look-up takes as many steps as halving it does. From the first
/// on that is put out of order they stand in a table.
#[derive(Drop)]
pub struct Rising {
    ordered: Vec<Met>,
    others: Places,
}

impl Model for Rising {
    ghost use Rattle.std.specs.Prelude.{List, ◌++◌, map};
    ghost use Rattle.hare_tree.specs.declared.place.Place.{Place};
    ghost use Rattle.hare_tree.specs.declared.token.Meaning.{Meaning};
    ghost use Rattle.hare_names.specs.Keys.{met_of, IsRising};

    ghost Value = { List (Place × Meaning) };

    ghost view = { λ a. map met_of a.ordered.items ++ a.others };

    ghost invariant = { λ a. IsRising a.ordered.items };
}

impl Rising {
    /// No meanings. Takes no memory.
    pub fn new(alloc: Global) -> Rising
        ensures { result ≡ [] }
    {
        Rising {
            ordered: Vec::new(alloc),
            others: Places::new(alloc),
        }
    }

    /// The meaning at a place, if one was put there.
    pub fn get(&self, place: Place) -> Option<Meaning>
        ensures { result ≡ meaning_at place self.now }
    {
        match search(self.ordered.as_slice(), place) {
            Some(meaning) => Some(meaning),
            None => self.others.get(place),
        }
    }

    /// Puts a meaning at a place that has none. Nothing changes where it has one, or where memory is short.
    pub fn put(&mut self, place: Place, meaning: Meaning) -> Result<(), AllocError>
        ensures ok { OnOk result (self.new ≡ put self.old place meaning) }
        ensures err { OnErr result (self.new ≡ self.old) }
    {
        if self.others.is_empty() && is_behind(self.ordered.as_slice(), place) {
            self.ordered.push(Met { place, meaning })?;
            return Ok(());
        }
        if search(self.ordered.as_slice(), place).is_some() {
            return Ok(());
        }
        self.others.put(place, meaning)?;
        Ok(())
    }
}

/// Whether a place stands behind the last of those in their order.
fn is_behind(ordered: &[Met], place: Place) -> bool
    requires { IsRising ordered.now }
    ensures { IsTrue result → AreBefore ordered.now place }
{
    let count = ordered.len();
    if count == 0 {
        return true;
    }
    is_before(ordered[count - 1].place, place)
}

/// Whether the first place stands before the second.
fn is_before(p: Place, q: Place) -> bool
    ensures { result ≡ is_before p q }
{
    p.file < q.file
        || (p.file == q.file && (p.line < q.line || (p.line == q.line && p.column < q.column)))
}

/// The meaning at a place among those in their order.
fn search(ordered: &[Met], place: Place) -> Option<Meaning>
    requires { IsRising ordered.now }
    ensures { result ≡ rising_at place ordered.now }
{
    let mut low = 0;
    let mut high = ordered.len();
    'halves: while low < high {
        let middle = low + (high - low) / 2;
        let met = ordered[middle];
        if is_before(met.place, place) {
            low = middle + 1;
        } else if is_before(place, met.place) {
            high = middle;
        } else {
            return Some(met.meaning);
        }
    }
    None
}
