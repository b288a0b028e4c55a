//! The cells of objects by their numbers.

ghost use Rattle.std.specs.Prelude.{◌≡◌, ℕ, IfOk};
ghost use Rattle.std.specs.Ordering.{nat_cmp};
ghost use Rattle.std.specs.BTreeMap.{get};
ghost use Rattle.hare_typed.specs.Texts as spec;

use hare_typed::{ConstObjects, SharedCells};
use std::alloc::{AllocError, Global};
use std::collections::BTreeMap;

/// The cells of objects by their numbers.
pub(crate) type Table = BTreeMap<u64, SharedCells>;

/// The cells of these objects: of several with one number, those of the first.
pub(crate) fn table_of(alloc: Global, mut objects: ConstObjects) -> Result<Table, AllocError>
    ensures { IfOk result (λ m. (n : ℕ) → get nat_cmp m n ≡ spec.cells_found objects n) }
{
    let mut table = BTreeMap::new(alloc);
    while let Some(o) = objects.pop() {
        table.insert(o.object, o.cells)?;
    }
    Ok(table)
}
