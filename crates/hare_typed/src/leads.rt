//! To which objects cells lead.

ghost use Rattle.std.specs.Prelude.{◌≡◌, ◌↔◌, IsTrue, [], option_to_list};
ghost use Rattle.hare_typed.specs.Leads as spec;

use crate::cell::Cell;

/// The objects of strings, and of arrays that became slices, have the numbers from here on; those below are globals.
const FIRST_OBJECT: u64 = 4_294_967_296;

/// The number of the object to which a cell leads, where it leads to one that is no global.
pub fn led_to(cell: Cell) -> Option<u64>
    ensures { option_to_list result ≡ spec.led_to cell }
{
    match cell {
        Cell::Fragment(object, _, _) => {
            if object < FIRST_OBJECT {
                None
            } else {
                Some(object)
            }
        }
        Cell::Byte(_) | Cell::Undef => None,
    }
}

/// Whether none of the cells leads to an object that is no global.
pub(crate) fn lead_nowhere(cells: &[Cell]) -> bool
    ensures { IsTrue result ↔ spec.leads cells.now ≡ [] }
{
    for cell in cells {
        if led_to(*cell).is_some() {
            return false;
        }
    }
    true
}
