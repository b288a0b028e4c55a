//! The faults of files, imports and their members.

ghost use Rattle.std.specs.Prelude.{◌≡◌, ◌≤◌, map, length};
ghost use Rattle.std.specs.List.{filter_map};
ghost use Rattle.hare_tree.specs.Spell.{start_of};
ghost use Rattle.hare_modules.specs.Order.{fault, first_in};
ghost use Rattle.hare_modules.specs.Tables.{value_of};
ghost use Rattle.hare_modules.specs.Uses.{place_of};
ghost use Rattle.hare_modules.specs.Takings as takings;
ghost use Rattle.hare_modules.specs.Taken as taken;

use crate::claims::{Claim, Taker, Used};
use crate::items::Entry;
use crate::order::earlier_of;
use crate::paths::path_in;
use crate::table::Table;
use hare_tree::{Fault, FileTree, Place, Tree};
use hx_base::Items;

/// The fault with a number at a place.
fn fault(number: u8, place: Place) -> Fault
    ensures { result ≡ fault number place }
{
    Fault { number, place }
}

/// The start of a file.
fn start_of(file: u32) -> Place
    ensures { result ≡ start_of file }
{
    Place {
        file,
        line: 1,
        column: 1,
    }
}

/// The first of E12 at the starts of the files of the module `rt`, whose number is 0.
pub fn runtime_file(homes: &[usize], files: &Items<FileTree>) -> Option<Fault>
    ensures { result ≡ first_in (takings.runtime_files homes.now files.now) }
{
    let mut first = None;
    for i in 0..homes.len() {
        let Some(tree) = files.get(i) else {
            return first;
        };
        first = earlier_of(first, runtime_fault(homes[i], tree));
    }
    first
}

/// The fault of a file of the module with this number, if that is `rt`.
fn runtime_fault(home: usize, tree: &FileTree) -> Option<Fault>
    ensures { result ≡ takings.runtime_file home tree.now }
{
    if home == 0 {
        Some(fault(12, start_of(tree.file)))
    } else {
        None
    }
}

/// The first of E11 at the paths of imports of no known module.
pub fn unknown_module(uses: &[Used<'_>]) -> Option<Fault>
    ensures { result ≡ first_in (filter_map takings.unknown_module (map takings.using uses.now)) }
{
    let mut first = None;
    for used in uses {
        first = earlier_of(first, module_fault(*used));
    }
    first
}

/// The fault of an import, if its module is not known.
fn module_fault(used: Used<'_>) -> Option<Fault>
    ensures { result ≡ takings.unknown_module (takings.using used.entry) }
{
    match used.to {
        Some(_) => None,
        None => Some(fault(11, place_of(path_in(used.tree)))),
    }
}

/// The place of a tree.
fn place_of(t: &Tree) -> Place
    ensures { result ≡ place_of t.now }
{
    t.place
}

/// The first of E14 and E15 at the names between the braces of imports of known modules.
pub fn unknown_member(items: &[Table<'_, Entry>], claims: &[Claim<'_>]) -> Option<Fault>
    ensures { result ≡ first_in (filter_map (taken.member_fault items.now) (map takings.taking claims.now)) }
{
    let mut first = None;
    for claim in claims {
        first = earlier_of(first, member_fault(items, *claim));
    }
    first
}

/// The fault of a name that stands between braces, if it has one.
fn member_fault(items: &[Table<'_, Entry>], claim: Claim<'_>) -> Option<Fault>
    ensures { result ≡ taken.member_fault items.now (takings.taking claim.entry) }
{
    let Taker::Import(import) = claim.taker else {
        return None;
    };
    if import.whole {
        return None;
    }
    match import.number {
        Some(module) => not_had(entry_at(items, module, claim.name), claim.place),
        None => None,
    }
}

/// What a module declares under a name.
pub fn entry_at(items: &[Table<'_, Entry>], number: usize, name: &[u8]) -> Option<Entry>
    ensures { result ≡ value_of name.now (taken.table_at items.now number) }
{
    match items.get(number) {
        Some(table) => table.get(name),
        None => None,
    }
}

/// The fault of a name that is not to be had from another module, which has this there.
fn not_had(entry: Option<Entry>, place: Place) -> Option<Fault>
    ensures { result ≡ taken.not_had entry place }
{
    match entry {
        None => Some(fault(15, place)),
        Some(entry) => {
            if entry.exported {
                None
            } else {
                Some(fault(14, place))
            }
        }
    }
}
