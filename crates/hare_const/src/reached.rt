//! The objects to which cells lead, directly or through others.

ghost use Rattle.std.specs.Prelude.{◌≡◌, ◌∷◌, [], true, slice_get, Contains, IfOk, OnOk};
ghost use Rattle.std.specs.Ordering.{nat_cmp};
ghost use Rattle.std.specs.BTreeMap.{get};
ghost use Rattle.hare_typed.specs.Leads as leading;
ghost use Rattle.hare_typed.specs.Leads.{leads};
ghost use Rattle.hare_types.specs.Unions.{ascending};
ghost use Rattle.hare_const.specs.Statics as spec;

use crate::table::{Table, table_of};
use hare_typed::{Cell, Cells, ConstObject, ConstObjects, SharedCells, led_to};
use std::alloc::{AllocError, Global};
use std::collections::BTreeSet;

/// Numbers of objects: in the order in which they were met, each once, and in ascending order.
#[derive(Drop)]
struct Met {
    order: Vec<u64>,
    numbers: BTreeSet<u64>,
}

/// Meets an object, again or for the first time.
fn meet(met: &mut Met, n: u64) -> Result<(), AllocError>
    requires { met.old.numbers.keys ≡ ascending met.old.order.items }
    ensures numbers { OnOk result (met.new.numbers.keys ≡ ascending met.new.order.items) }
    ensures order { OnOk result (spec.Adds (n ∷ []) met.old.order.items met.new.order.items) }
{
    if met.numbers.insert(n)? {
        met.order.push(n)?;
    }
    Ok(())
}

/// Whether this is the object that was last met for the first time.
fn is_newest(met: &Met, n: u64) -> bool
    ensures { result ≡ true → Contains met.now.order.items n }
{
    match met.order.last() {
        Some(newest) => *newest == n,
        None => false,
    }
}

/// Meets the object to which a cell leads, where it leads to one. The fragments of an address lead to one object, one behind another.
fn meet_from(met: &mut Met, cell: Cell) -> Result<(), AllocError>
    requires { met.old.numbers.keys ≡ ascending met.old.order.items }
    ensures numbers { OnOk result (met.new.numbers.keys ≡ ascending met.new.order.items) }
    ensures order { OnOk result (spec.Adds (leading.led_to cell) met.old.order.items met.new.order.items) }
{
    match led_to(cell) {
        Some(n) if is_newest(met, n) => Ok(()),
        Some(n) => meet(met, n),
        None => Ok(()),
    }
}

/// Meets the objects to which cells lead. A cell that is repeated is looked at once.
fn meet_led(met: &mut Met, cells: &Cells) -> Result<(), AllocError>
    requires { met.old.numbers.keys ≡ ascending met.old.order.items }
    ensures numbers { OnOk result (met.new.numbers.keys ≡ ascending met.new.order.items) }
    ensures order { OnOk result (spec.Adds (leads cells.now) met.old.order.items met.new.order.items) }
{
    let kept = cells.kept();
    for cell in kept {
        meet_from(met, *cell)?;
    }
    Ok(())
}

/// Meets the objects to which one leads, where it is in the table. One that leads nowhere, as a text, is not looked through.
fn meet_behind(met: &mut Met, table: &Table, n: u64) -> Result<(), AllocError>
    requires { met.old.numbers.keys ≡ ascending met.old.order.items }
    ensures numbers { OnOk result (met.new.numbers.keys ≡ ascending met.new.order.items) }
    ensures order { OnOk result (spec.Adds (leads (spec.cells_by (get nat_cmp table.now) n)) met.old.order.items met.new.order.items) }
{
    match table.get(&n) {
        Some(cells) if cells.lead_nowhere() => Ok(()),
        Some(cells) => meet_led(met, cells.cells()),
        None => Ok(()),
    }
}

/// The number that has so many before it in the order in which they were met.
fn met_at(met: &Met, i: usize) -> Option<u64>
    ensures { result ≡ slice_get met.now.order.items i }
{
    met.order.get(i).copied()
}

/// Meets the objects to which the one leads that has so many before it in the order in which they were met.
fn meet_next(met: &mut Met, table: &Table, i: usize) -> Result<(), AllocError>
    requires { met.old.numbers.keys ≡ ascending met.old.order.items }
    ensures numbers { OnOk result (met.new.numbers.keys ≡ ascending met.new.order.items) }
    ensures order { OnOk result (spec.Adds (spec.led_from (get nat_cmp table.now) (slice_get met.old.order.items i)) met.old.order.items
        met.new.order.items) }
{
    match met_at(met, i) {
        Some(n) => meet_behind(met, table, n),
        None => Ok(()),
    }
}

/// The numbers of the objects to which cells lead, directly or through others. Want of memory where they are more than the objects of the
/// table, of which there are so many: some object is not in it then.
fn numbers_reached(
    alloc: Global,
    table: &Table,
    count: usize,
    cells: &Cells,
) -> Result<BTreeSet<u64>, AllocError>
    ensures { IfOk result (λ ns. ns.keys ≡ spec.reached_by (get nat_cmp table.now) count (ascending (leads cells.now))) }
{
    let mut met = Met {
        order: Vec::new(alloc),
        numbers: BTreeSet::new(alloc),
    };
    meet_led(&mut met, cells)?;
    for i in 0..count {
        meet_next(&mut met, table, i)?;
    }
    if met.order.len() > count {
        return Err(AllocError);
    }
    Ok(met.numbers)
}

/// The cells of the object with this number; none where it is not in the table.
fn cells_of(alloc: Global, table: &Table, n: u64) -> Result<SharedCells, AllocError>
    ensures { IfOk result (λ cs. cs ≡ spec.cells_by (get nat_cmp table.now) n) }
{
    match table.get(&n) {
        Some(cells) => cells.share(),
        None => SharedCells::new(alloc, Cells::new(alloc)),
    }
}

/// The objects with these numbers, with their cells.
fn listed(alloc: Global, table: &Table, numbers: &[u64]) -> Result<ConstObjects, AllocError>
    ensures { IfOk result (λ os. os ≡ spec.listed_by (get nat_cmp table.now) numbers.now) }
{
    let mut objects = ConstObjects::new(alloc);
    for n in numbers {
        let cells = cells_of(alloc, table, *n)?;
        objects.push(ConstObject { object: *n, cells })?;
    }
    Ok(objects)
}

/// Those of the objects to which cells lead, directly or through such objects, by ascending number; of several with one number the first
/// counts. Want of memory where they lead to so many numbers besides that there are more numbers than objects. Each object that is reached
/// is looked at once.
pub(crate) fn objects_led_to(
    alloc: Global,
    objects: ConstObjects,
    cells: &Cells,
) -> Result<ConstObjects, AllocError>
    ensures { IfOk result (λ os. os ≡ spec.objects_led_to objects cells.now) }
{
    let count = objects.len();
    let table = table_of(alloc, objects)?;
    let reached = numbers_reached(alloc, &table, count, cells)?;
    let numbers = reached.iter().copied().collect::<Vec<u64>>(alloc)?;
    listed(alloc, &table, numbers.as_slice())
}
