//! The entry of a program.

ghost use Rattle.std.specs.Prelude.{◌≡◌, map, position, IfOk, IfErr};
ghost use Rattle.hare_modules.specs.Order.{fault};
ghost use Rattle.hare_typed.specs.Erased.{erase};
ghost use Rattle.hare_whole.specs.Limits as spec;
ghost use Rattle.hare_limits.specs.Homes.{is_main_by};
ghost use Rattle.hare_limits.specs.Stops.{StopsAtEntry};

use crate::homes::{Homes, homes_of, is_home};
use crate::shapes::{is_entry_shaped, is_function_named, name_in};
use hare_tree::{Fault, Place, Stop};
use hare_typed::{Typed, TypedKids};
use hx_base::Text;
use std::alloc::Global;

/// The number of the fault of an entry.
const BAD_ENTRY: u8 = 46;

/// The start of the first file.
const START: Place = Place {
    file: 0,
    line: 1,
    column: 1,
};

/// The number of the function with which a program begins, by the paths of its files and by its declarations: `export fn main() void` of
/// the module of the first file. The fault is E46: at the name of that module's `main` where it reads otherwise, and at the start of the
/// first file where there is none.
///
/// Takes time in proportion to the paths and to the declarations.
pub fn entry(alloc: Global, paths: &[Text], decls: &TypedKids) -> Result<usize, Stop<Fault>>
    ensures ok { IfOk result (λ n. spec.IsEntry paths.now (map erase decls.now) n) }
    ensures err { IfErr result (StopsAtEntry paths.now decls.now) }
{
    let homes = homes_of(alloc, paths)?;
    let Some(number) = main_among(&homes, decls) else {
        return Err(Stop::Fault(bad_entry(START)));
    };
    let Some(decl) = decls.get(number) else {
        return Err(Stop::Fault(bad_entry(START)));
    };
    if is_entry_shaped(decl) {
        Ok(number)
    } else {
        Err(Stop::Fault(bad_entry(name_in(decl).place)))
    }
}

/// The fault of an entry at a place.
fn bad_entry(place: Place) -> Fault
    ensures { result ≡ fault 46 place }
{
    Fault {
        number: BAD_ENTRY,
        place,
    }
}

/// The number of the first function `main` of the module of the first file.
fn main_among(homes: &Homes, decls: &TypedKids) -> Option<usize>
    ensures { result ≡ position (is_main_by homes.now.first.items homes.now.kept.items) (map erase decls.now) }
{
    for i in 0..decls.len() {
        let Some(decl) = decls.get(i) else {
            return None;
        };
        if is_main(homes, decl) {
            return Some(i);
        }
    }
    None
}

/// Whether a declaration is a function `main` of the module of the first file.
fn is_main(homes: &Homes, t: &Typed) -> bool
    ensures { result ≡ is_main_by homes.now.first.items homes.now.kept.items (erase t.now) }
{
    is_function_named(t, b"main") && is_home(homes, t.place.file as usize)
}
