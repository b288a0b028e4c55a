//! What modules declare and files import, as tables.

use hare_modules::{Entry, Imported, Table};

/// What the names of modules mean, and what the names that files import stand for.
#[derive(Drop)]
pub struct Directory<'a> {
    /// Of each file the number of its module.
    pub homes: Vec<usize>,
    /// Of each module, by its number, what its names mean.
    pub items: Vec<Table<'a, Entry>>,
    /// Of each file what the names that it imports stand for.
    pub imports: Vec<Table<'a, Imported>>,
}
