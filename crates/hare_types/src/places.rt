//! Where rows lie in the store's table of hashes.
//!
//! Types that are taken in one after another are mostly asked for one after another. Pointers to them so lie by their ids in the table, and
//! few lines of memory are met for many of them. There is at most one pointer to a type, so that no part of the table gets more of them
//! than it has room for; of other rows, as arrays, there may be any number over one type, and they lie by a hash of all that is in them,
//! which scatters them.

ghost use Rattle.std.specs.Prelude.{◌≡◌, length};
ghost use Rattle.std.specs.Hash.FoldHasher.{read_u32};
ghost use Rattle.hare_types.specs.Places.{next_place, hash_at};

use crate::row::Row;
use indexmap::IndexSet;
use std::hash::{BuildHasherDefault, FoldHasher, Hasher};

/// The kind of a pointer, as it is written to a hasher.
pub(crate) const POINTER: u8 = 1;

/// The rows of a store, each once.
pub(crate) type Rows = IndexSet<Row, BuildHasherDefault<RowHasher>>;

/// What is known of the place of a row from what was written of it.
#[derive(Clone, Copy)]
pub(crate) enum Place {
    /// Nothing was written.
    Start,
    /// The kind of a pointer.
    Pointer,
    /// The kind of a pointer, and the id of the type that it points to.
    Near(u32),
    /// Anything else.
    Far,
}

/// A hasher of rows.
#[derive(Clone, Copy, Drop)]
pub(crate) struct RowHasher {
    all: FoldHasher,
    place: Place,
}

impl Default for RowHasher {
    ghost use Rattle.hare_types.specs.Places.{initial};

    ghost is_default = { λ h. h ≡ initial };

    fn default() -> RowHasher {
        RowHasher {
            all: FoldHasher::default(),
            place: Place::Start,
        }
    }
}

impl Hasher for RowHasher {
    ghost use Rattle.hare_types.specs.Places.{write, finish};

    ghost write = { write };

    ghost finish = { finish };

    fn finish(&self) -> u64 {
        hash_at(self.place, self.all.finish())
    }

    fn write(&mut self, bytes: &[u8]) {
        self.place = next_place(self.place, bytes);
        self.all.write(bytes);
    }
}

/// What is known of the place once these bytes follow.
fn next_place(place: Place, bytes: &[u8]) -> Place
    ensures { result ≡ next_place place bytes.now }
{
    match place {
        Place::Start => {
            if bytes.len() == 1 && bytes[0] == POINTER {
                Place::Pointer
            } else {
                Place::Far
            }
        }
        Place::Pointer => {
            if bytes.len() == 4 {
                Place::Near(word(bytes))
            } else {
                Place::Far
            }
        }
        Place::Near(_) => Place::Far,
        Place::Far => Place::Far,
    }
}

/// The number that is written in four bytes.
fn word(bytes: &[u8]) -> u32
    requires { length bytes.now ≡ 4 }
    ensures { result ≡ read_u32 bytes.now 0 }
{
    u32::from_le_bytes([bytes[0], bytes[1], bytes[2], bytes[3]])
}

/// The hash, where that of all that was written is `all`: eight bits of it, and behind them the place of two types.
fn hash_at(place: Place, all: u64) -> u64
    ensures { result ≡ hash_at place all }
{
    match place {
        Place::Near(t) => (all >> 56) * 16_777_216 + u64::from(t / 2 % 16_777_216),
        _ => all,
    }
}
