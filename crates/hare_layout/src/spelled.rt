//! A type as a program spells it, before it is reduced.

ghost use Rattle.std.specs.Prelude.{◌≡◌, [], ◌∷◌, ◌++◌, length, slice_get, option_copied, OnOk, OnErr};
ghost use Rattle.hare_layout.specs.Reduction.{is_spread, place_of};

use hare_tree::Place;
use hare_types::Row;
use std::alloc::{AllocError, Global};
use std::marker::Model;

/// A list of answers to one question, as whether the members of a union are spread.
#[derive(Drop)]
pub struct Bools {
    items: Vec<bool>,
}

impl Model for Bools {
    ghost use Rattle.std.specs.Prelude.{List, Bool};

    ghost Value = { List Bool };

    ghost view = { λ a. a.items.items };
}

impl Bools {
    /// An empty list.
    pub fn new(alloc: Global) -> Bools
        ensures { result ≡ [] }
    {
        Bools {
            items: Vec::new(alloc),
        }
    }

    /// Puts an answer at the end. Nothing changes where memory is short.
    pub fn push(&mut self, answer: bool) -> Result<(), AllocError>
        ensures ok { OnOk result (self.new ≡ self.old ++ answer ∷ []) }
        ensures err { OnErr result (self.new ≡ self.old) }
    {
        self.items.push(answer)?;
        Ok(())
    }

    /// How many answers there are.
    pub fn len(&self) -> usize
        ensures { result ≡ length self.now }
    {
        self.items.len()
    }

    /// The answer at a place of the list.
    pub fn get(&self, i: usize) -> Option<&bool>
        ensures { option_copied result ≡ slice_get self.now i }
    {
        self.items.get(i)
    }
}

/// A list of places in source files.
#[derive(Drop)]
pub struct Places {
    items: Vec<Place>,
}

impl Model for Places {
    ghost use Rattle.std.specs.Prelude.{List};
    ghost use Rattle.hare_tree.specs.declared.place.Place.{Place};

    ghost Value = { List Place };

    ghost view = { λ a. a.items.items };
}

impl Places {
    /// An empty list.
    pub fn new(alloc: Global) -> Places
        ensures { result ≡ [] }
    {
        Places {
            items: Vec::new(alloc),
        }
    }

    /// Puts a place at the end. Nothing changes where memory is short.
    pub fn push(&mut self, place: Place) -> Result<(), AllocError>
        ensures ok { OnOk result (self.new ≡ self.old ++ place ∷ []) }
        ensures err { OnErr result (self.new ≡ self.old) }
    {
        self.items.push(place)?;
        Ok(())
    }

    /// How many places there are.
    pub fn len(&self) -> usize
        ensures { result ≡ length self.now }
    {
        self.items.len()
    }

    /// The place at a place of the list.
    pub fn get(&self, i: usize) -> Option<&Place>
        ensures { option_copied result ≡ slice_get self.now i }
    {
        self.items.get(i)
    }
}

/// A type as it is spelled: a row whose union members stand as they are written.
#[derive(Drop)]
pub struct Spelled {
    pub row: Row,
    /// For each member of a union whether it is spread, `...path`: false for those of which nothing stands here.
    pub spreads: Bools,
    /// For each member of a union where it stands: those of which nothing stands here stand where the type does.
    pub places: Places,
}

/// Whether member `k` is spread.
pub(crate) fn is_spread(r: &Spelled, k: usize) -> bool
    ensures { result ≡ is_spread r.now k }
{
    match r.spreads.get(k) {
        Some(spread) => *spread,
        None => false,
    }
}

/// Where member `k` stands, in a type that stands at `place`.
pub(crate) fn place_of(r: &Spelled, place: Place, k: usize) -> Place
    ensures { result ≡ place_of r.now place k }
{
    match r.places.get(k) {
        Some(member) => *member,
        None => place,
    }
}
