//! Copies of constants.

ghost use Rattle.std.specs.Prelude.{◌≡◌, IfOk};

use hare_typed::{Cells, Const, ConstObject, ConstObjects};
use std::alloc::{AllocError, Global};

/// A copy of cells.
fn copy_cells(alloc: Global, cells: &Cells) -> Result<Cells, AllocError>
    ensures { IfOk result (λ cs. cs ≡ cells.now) }
{
    let mut copy = Cells::new(alloc);
    copy.append(alloc, cells)?;
    Ok(copy)
}

/// A copy of objects, in their order, that shares their cells.
fn copy_objects(alloc: Global, objects: &ConstObjects) -> Result<ConstObjects, AllocError>
    ensures { IfOk result (λ os. os ≡ objects.now) }
{
    let mut copy = ConstObjects::new(alloc);
    for i in 0..objects.len() {
        let Some(object) = objects.get(i) else {
            unreachable!();
        };
        let cells = object.cells.share()?;
        copy.push(ConstObject {
            object: object.object,
            cells,
        })?;
    }
    Ok(copy)
}

/// A copy of a constant, which shares the cells of its objects. The time is that of its own cells and of the number of its objects.
pub fn copy_constant(alloc: Global, value: &Const) -> Result<Const, AllocError>
    ensures { IfOk result (λ c. c ≡ value.now) }
{
    match value {
        Const::Absent => Ok(Const::Absent),
        Const::Known { cells, objects } => {
            let cells = copy_cells(alloc, cells)?;
            let objects = copy_objects(alloc, objects)?;
            Ok(Const::Known { cells, objects })
        }
    }
}
