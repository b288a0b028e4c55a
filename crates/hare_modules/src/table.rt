//! Tables from names to values, of which the first that is put under a name stays.

ghost use Rattle.std.specs.Prelude.{◌≡◌, [], IfOk, OnOk, OnErr};
ghost use Rattle.hare_modules.specs.Tables as spec;

use indexmap::IndexMap;
use std::alloc::{AllocError, Global};
use std::marker::Model;

/// A table from names, which are borrowed, to values. A name keeps the first value that is put under it.
///
/// A look-up takes constant expected time.
#[derive(Drop)]
pub struct Table<'a, T> {
    entries: IndexMap<&'a [u8], T>,
}

impl<'a, T> Model for Table<'a, T> {
    ghost use Rattle.std.specs.Prelude.{List, ℕ, map};

    ghost Value = { List (List ℕ × T) };

    ghost view = { λ a. map (λ e. (e.0.now, e.1)) a.entries.entries };
}

impl<'a, T: Copy> Table<'a, T> {
    /// An empty table. Takes no memory.
    pub fn new(alloc: Global) -> Table<'a, T>
        ensures { result ≡ [] }
    {
        Table {
            entries: IndexMap::new(alloc),
        }
    }

    /// The value under a name, if there is one.
    pub fn get(&self, name: &[u8]) -> Option<T>
        ensures { result ≡ spec.value_of name.now self.now }
    {
        self.entries.get(name).copied()
    }

    /// Takes all names out, and keeps the memory. Takes time in proportion to the names.
    pub fn clear(&mut self)
        ensures { self.new ≡ [] }
    {
        self.entries.truncate(0);
    }

    /// Puts a value under a name that has none. Nothing changes where it has one, or where memory is short.
    pub fn put(&mut self, name: &'a [u8], value: T) -> Result<(), AllocError>
        ensures ok { OnOk result (self.new ≡ spec.put self.old name.now value) }
        ensures err { OnErr result (self.new ≡ self.old) }
    {
        self.enter(name, value)?;
        Ok(())
    }

    /// The same. The answer is whether the name had a value before.
    pub fn enter(&mut self, name: &'a [u8], value: T) -> Result<bool, AllocError>
        ensures had { IfOk result (λ had. had ≡ spec.has name.now self.old) }
        ensures ok { OnOk result (self.new ≡ spec.put self.old name.now value) }
        ensures err { OnErr result (self.new ≡ self.old) }
    {
        if let Some(first) = self.entries.insert(name, value)? {
            self.entries.insert(name, first)?;
            return Ok(true);
        }
        Ok(false)
    }
}
