//! Casts.

ghost use Rattle.std.specs.Prelude.{◌≡◌, ◌-◌, ◌<◌, IfOk, false};
ghost use Rattle.hare_const.specs.NodeValues as spec;

use crate::kids::type_of_kid;
use crate::measures::length_of_value;
use crate::number::{number_cells, number_of_value};
use crate::shape::{Shape, shape_at};
use hare_typed::{Cells, Typed};
use hare_types::{Ty, TypeStore};
use std::alloc::{AllocError, Global};

/// Whether the base of a type is an integer type or rune: what is cast to it is cut to its bits.
fn is_whole(s: &TypeStore, t: Ty) -> bool
    ensures { result ≡ spec.is_whole_type s.now t }
{
    let Ty::Of(t) = t else {
        return false;
    };
    match shape_at(s, t) {
        Some(Shape::Whole(bytes, _)) => bytes > 0,
        _ => false,
    }
}

/// The value of a cast, of the value that is cast.
pub(crate) fn cast_value(
    alloc: Global,
    s: &TypeStore,
    t: &Typed,
    cells: &Cells,
) -> Result<Cells, AllocError>
    ensures { IfOk result (λ cs. cs ≡ spec.cast_value s.now t.now cells.now) }
{
    if is_whole(s, t.ty) {
        let number = number_of_value(s, type_of_kid(t, 0), cells);
        return number_cells(alloc, s, t.ty, number);
    }
    let mut copy = Cells::new(alloc);
    copy.append(alloc, cells)?;
    Ok(copy)
}
