//! Lists from their end.

ghost use Rattle.std.specs.Prelude.{◌≡◌, reverse, IfOk};

use hx_base::Items;
use std::alloc::{AllocError, Global};

/// The elements of a list from the last to the first, so that they can be taken off from the first on.
pub(crate) fn reversed<T: Drop>(alloc: Global, mut items: Items<T>) -> Result<Items<T>, AllocError>
    ensures { IfOk result (λ r. r ≡ reverse items) }
{
    let mut turned = Items::new(alloc);
    while let Some(item) = items.pop() {
        turned.push(item)?;
    }
    Ok(turned)
}
