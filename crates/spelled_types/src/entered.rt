//! The types and the names that lines entered.

ghost use Rattle.std.specs.Prelude.{◌≡◌, []};
ghost use Rattle.hare_types.specs.Store.{empty};

use anyhow::Result;
use hare_types::TypeStore;
use std::alloc::Global;

/// The number of the refusal of memory, which no line declares.
pub const NOMEM: u32 = 4_294_967_295;

/// The types that lines entered, and the spellings of their names, by the numbers that the store gives them.
#[derive(Drop)]
pub struct Table {
    pub alloc: Global,
    pub store: TypeStore,
    pub names: Vec<String>,
}

impl Table {
    /// No types.
    pub fn new(alloc: Global) -> Table
        ensures types { result.store ≡ empty }
        ensures names { result.names.items ≡ [] }
    {
        Table {
            alloc,
            store: TypeStore::new(alloc),
            names: Vec::new(alloc),
        }
    }

    /// The number of a name: [`NOMEM`] for `rt::nomem`, and else that which the store gives it.
    pub fn number(&mut self, name: &str) -> Result<u32>
        ensures { self.new.store.rows ≡ self.old.store.rows }
    {
        if name == "rt::nomem" {
            return Ok(NOMEM);
        }
        let number = self.store.name(name.as_bytes())?;
        if number as usize == self.names.len() {
            let spelling = String::from_str(self.alloc, name)?;
            self.names.push(spelling)?;
        }
        Ok(number)
    }
}
