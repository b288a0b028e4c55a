//! Names by number: each has the number of those that were entered before it.

ghost use Rattle.std.specs.Prelude.{◌≡◌, [], length, position, bytes_eq, OnOk, OnErr, IfOk};
ghost use Rattle.std.specs.List.{position_or_len};
ghost use Rattle.hare_modules.specs.Tables as spec;

use indexmap::IndexSet;
use std::alloc::{AllocError, Global};
use std::marker::Model;

/// Names by number, in the order in which they were entered.
#[derive(Drop)]
pub struct Register {
    names: IndexSet<Vec<u8>>,
}

impl Model for Register {
    ghost use Rattle.std.specs.Prelude.{List, ℕ, map};

    ghost Value = { List (List ℕ) };

    ghost view = { λ a. map (λ v. v.items) a.names.keys };
}

impl Register {
    /// No names. Takes no memory.
    pub fn new(alloc: Global) -> Register
        ensures { result ≡ [] }
    {
        Register {
            names: IndexSet::new(alloc),
        }
    }

    /// How many names there are.
    pub fn len(&self) -> usize
        ensures { result ≡ length self.now }
    {
        self.names.len()
    }

    /// The number of a name, if it was entered.
    pub fn number(&self, name: &[u8]) -> Option<usize>
        ensures { result ≡ position (bytes_eq name.now) self.now }
    {
        self.names.get_index_of(name)
    }

    /// The number of a name, which is put last unless it is there.
    pub fn enter(&mut self, name: Vec<u8>) -> Result<usize, AllocError>
        ensures number { IfOk result (λ n. n ≡ position_or_len (bytes_eq name.items) self.old) }
        ensures ok { OnOk result (self.new ≡ spec.entered self.old name.items) }
        ensures err { OnErr result (self.new ≡ self.old) }
    {
        let (number, _) = self.names.insert_full(name)?;
        Ok(number)
    }
}
