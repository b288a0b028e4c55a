//! Meanings by places.

ghost use Rattle.std.specs.Prelude.{◌≡◌, ◌↔◌, [], IsTrue, OnOk, OnErr};
ghost use Rattle.hare_names.specs.Tables as spec;
ghost use Rattle.hare_names.specs.Keys.{place_of};

use hare_tree::{Meaning, Place};
use indexmap::IndexMap;
use std::alloc::{AllocError, Global};
use std::marker::Model;

// A place, as a key.
#[derive(Clone, Copy, Debug, PartialEq, Eq, Hash)]
struct Key {
    file: u32,
    line: u32,
    column: u32,
}

/// Meanings by places. A place keeps the first that is put there.
///
/// A look-up takes constant expected time.
#[derive(Drop)]
pub struct Places {
    meanings: IndexMap<Key, Meaning>,
}

impl Model for Places {
    ghost use Rattle.std.specs.Prelude.{List, map};
    ghost use Rattle.hare_tree.specs.declared.place.Place.{Place};
    ghost use Rattle.hare_tree.specs.declared.token.Meaning.{Meaning};
    ghost use Rattle.hare_names.specs.Keys.{place_of};

    ghost Value = { List (Place × Meaning) };

    ghost view = { λ a. map (λ e. (place_of e.0, e.1)) a.meanings.entries };
}

impl Places {
    /// No meanings. Takes no memory.
    pub fn new(alloc: Global) -> Places
        ensures { result ≡ [] }
    {
        Places {
            meanings: IndexMap::new(alloc),
        }
    }

    /// Whether there are none.
    pub fn is_empty(&self) -> bool
        ensures { IsTrue result ↔ (self.now ≡ []) }
    {
        self.meanings.is_empty()
    }

    /// The meaning at a place, if one was put there.
    pub fn get(&self, place: Place) -> Option<Meaning>
        ensures { result ≡ spec.meaning_at place self.now }
    {
        self.meanings.get(&key_of(place)).copied()
    }

    /// Puts a meaning at a place that has none. Nothing changes where it has one, or where memory is short.
    pub fn put(&mut self, place: Place, meaning: Meaning) -> Result<(), AllocError>
        ensures ok { OnOk result (self.new ≡ spec.put self.old place meaning) }
        ensures err { OnErr result (self.new ≡ self.old) }
    {
        let key = key_of(place);
        if let Some(first) = self.meanings.insert(key, meaning)? {
            self.meanings.insert(key, first)?;
        }
        Ok(())
    }
}

/// A place as a key.
fn key_of(p: Place) -> Key
    ensures { place_of result ≡ p }
{
    Key {
        file: p.file,
        line: p.line,
        column: p.column,
    }
}
