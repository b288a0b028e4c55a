//! The names that are taken in the modules, and equal names.

ghost use Rattle.std.specs.Prelude.{◌≡◌, ◌<◌, map, fold, Some, None, if◌then◌else◌, OnOk, IfOk};
ghost use Rattle.hare_modules.specs.Order.{fault, first_in};
ghost use Rattle.hare_modules.specs.Takings.{taking};
ghost use Rattle.hare_modules.specs.Tables as words;
ghost use Rattle.hare_modules.specs.Taken as spec;

use crate::claims::{Claim, Taker};
use crate::imports::Imported;
use crate::items::{Entry, build_in};
use crate::order::earlier_of;
use crate::table::Table;
use hare_tree::{Fault, Place};
use std::alloc::{AllocError, Global};

/// The names that are taken.
#[derive(Drop)]
pub struct Taken<'a> {
    /// What each module declares.
    pub items: Vec<Table<'a, Entry>>,
    /// What the files of each module import.
    pub imported: Vec<Table<'a, ()>>,
    /// What each file imports.
    pub imports: Vec<Table<'a, Imported>>,
}

/// What is built in, where there are so many modules and files. There is a module at least: `modules` is not 0. Fails for want of memory
/// alone.
pub fn built_in<'a>(alloc: Global, modules: usize, files: usize) -> Result<Taken<'a>, AllocError>
    requires { 0 < modules }
    ensures { IfOk result (λ t. spec.tables_of t ≡ spec.first_tables modules files) }
{
    let mut items = tables(alloc, modules)?;
    build_in(&mut items[0])?;
    Ok(Taken {
        items,
        imported: tables(alloc, modules)?,
        imports: tables(alloc, files)?,
    })
}

/// Takes names in their order. The answer is the first of the faults at the later of two equal names.
pub fn take_all<'a>(
    taken: &mut Taken<'a>,
    claims: &[Claim<'a>],
) -> Result<Option<Fault>, AllocError>
    ensures first { IfOk result (λ f. f ≡ first_in (spec.repeated_faults (spec.tables_of taken.old) (map taking claims.now))) }
    ensures taken { OnOk result (spec.tables_of taken.new ≡ fold spec.tables_with (spec.tables_of taken.old) (map taking claims.now)) }
{
    let mut first = None;
    for claim in claims {
        let repeated = take(taken, *claim)?;
        first = earlier_of(first, repeated);
    }
    Ok(first)
}

/// Takes a name, unless it is taken. Then the answer is its fault.
fn take<'a>(taken: &mut Taken<'a>, claim: Claim<'a>) -> Result<Option<Fault>, AllocError>
    ensures fault { IfOk result (λ f. f ≡ spec.repeated_fault (spec.tables_of taken.old) (taking claim.entry)) }
    ensures taken { OnOk result (spec.tables_of taken.new ≡ spec.tables_with (spec.tables_of taken.old) (taking claim.entry)) }
{
    match claim.taker {
        Taker::Import(import) => {
            let is_declared = has(taken.items.as_slice(), claim.home, claim.name);
            put(&mut taken.imported, claim.home, claim.name, ())?;
            let had = put(&mut taken.imports, claim.file, claim.name, import)?;
            Ok(fault_if(is_declared || had, claim.place))
        }
        Taker::Declaration(entry) => {
            let is_imported = has(taken.imported.as_slice(), claim.home, claim.name);
            let had = put(&mut taken.items, claim.home, claim.name, entry)?;
            Ok(fault_if(had || is_imported, claim.place))
        }
    }
}

/// The fault of a name at a place, if it is taken already.
fn fault_if(is_taken: bool, place: Place) -> Option<Fault>
    ensures { result ≡ (if is_taken then Some (fault 12 place) else None) }
{
    if is_taken {
        Some(Fault { number: 12, place })
    } else {
        None
    }
}

/// So many empty tables.
fn tables<'a, T: Copy>(alloc: Global, count: usize) -> Result<Vec<Table<'a, T>>, AllocError>
    ensures { IfOk result (λ ts. ts.items ≡ spec.empty_tables count) }
{
    let mut tables = Vec::new(alloc);
    for _ in 0..count {
        tables.push(Table::new(alloc))?;
    }
    Ok(tables)
}

/// Whether a table, by its number, has a name.
fn has<T: Copy>(tables: &[Table<'_, T>], number: usize, name: &[u8]) -> bool
    ensures { result ≡ words.has name.now (spec.table_at tables.now number) }
{
    match tables.get(number) {
        Some(table) => table.get(name).is_some(),
        None => false,
    }
}

/// Puts a value under a name into a table, by the table's number, unless the name has a value there. The answer is whether it has.
fn put<'a, T: Copy>(
    tables: &mut Vec<Table<'a, T>>,
    number: usize,
    name: &'a [u8],
    value: T,
) -> Result<bool, AllocError>
    ensures had { IfOk result (λ had. had ≡ words.has name.now (spec.table_at tables.old.items number)) }
    ensures put { OnOk result (tables.new.items ≡ spec.put_at tables.old.items number name.now value) }
{
    if number < tables.len() {
        return tables[number].enter(name, value);
    }
    Ok(false)
}
