//! A few bytes that stand in a value itself, which contracts see as a list.

ghost use Rattle.std.specs.Prelude.{◌≡◌, ◌≤◌, ◌<◌, ◌+◌, [], ◌∷◌, ◌++◌, length};

use std::marker::Model;

/// How many bytes a short text has at the most.
pub(crate) const ROOM: usize = 14;

/// At most 14 bytes.
#[derive(Drop)]
pub(crate) struct Short {
    bytes: [u8; ROOM],
    len: u8,
}

impl Model for Short {
    ghost use Rattle.std.specs.Prelude.{List, ℕ, ◌≤◌, take};

    ghost Value = { List ℕ };

    ghost view = { λ a. take a.len a.bytes };

    ghost invariant = { λ a. a.len ≤ 14 };
}

impl Short {
    /// No bytes.
    pub(crate) fn new() -> Short
        ensures { result ≡ [] }
    {
        Short {
            bytes: [0; ROOM],
            len: 0,
        }
    }

    /// How many bytes fit behind these.
    pub(crate) fn room(&self) -> usize
        ensures { length self.now + result ≡ 14 }
    {
        ROOM - self.len as usize
    }

    /// Puts one byte at the end.
    pub(crate) fn push(&mut self, b: u8)
        requires { length self.old < 14 }
        ensures { self.new ≡ self.old ++ b ∷ [] }
    {
        self.bytes[self.len as usize] = b;
        self.len += 1;
    }

    /// Puts bytes at the end.
    pub(crate) fn extend(&mut self, b: &[u8])
        requires { length self.old + length b.now ≤ 14 }
        ensures { self.new ≡ self.old ++ b.now }
    {
        for &byte in b {
            self.push(byte);
        }
    }

    /// The bytes.
    pub(crate) fn bytes(&self) -> &[u8]
        ensures { result.now ≡ self.now }
    {
        &self.bytes[..self.len as usize]
    }
}
