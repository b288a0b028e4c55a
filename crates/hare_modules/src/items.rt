//! What names of modules mean, and what is built into the module `rt`.

ghost use Rattle.std.specs.Prelude.{◌≡◌, [], OnOk};
ghost use Rattle.hare_modules.specs.Declarations as spec;
ghost use Rattle.hare_modules.specs.Entries as entries;

use crate::paths::kid;
use crate::table::Table;
use hare_tree::{Kind, Meaning, Tree};
use std::alloc::AllocError;

/// What a name of a module means.
#[derive(Clone, Copy, Debug, PartialEq, Eq)]
pub struct Entry {
    /// Whether other modules may have it.
    pub exported: bool,
    /// Whether it is a type.
    pub is_type: bool,
    pub meaning: Meaning,
}

/// The number of the type `rt::nomem`, which no file declares.
pub const NOMEM: u32 = 4_294_967_295;

/// Puts what is built in into the table of the module `rt`.
pub fn build_in(items: &mut Table<'_, Entry>) -> Result<(), AllocError>
    requires { items.old ≡ [] }
    ensures { OnOk result (items.new ≡ entries.built_in) }
{
    items.put(b"puts", runtime_function(0))?;
    items.put(b"write", runtime_function(1))?;
    items.put(b"read", runtime_function(2))?;
    items.put(b"bytes", runtime_function(3))?;
    items.put(b"nargs", runtime_function(4))?;
    items.put(b"arg", runtime_function(5))?;
    items.put(b"exit", runtime_function(6))?;
    items.put(b"nomem", nomem())
}

/// The function of `rt` with a number.
fn runtime_function(n: u32) -> Entry
    ensures { result ≡ entries.runtime_function n }
{
    Entry {
        exported: true,
        is_type: false,
        meaning: Meaning::Rt(n),
    }
}

/// The type `rt::nomem`.
fn nomem() -> Entry
    ensures { result ≡ entries.nomem_entry }
{
    Entry {
        exported: true,
        is_type: true,
        meaning: Meaning::Decl(NOMEM),
    }
}

/// The tree of a declaration's name.
pub fn name_in(t: &Tree) -> &Tree
    ensures { result.now ≡ spec.name_in t.now }
{
    kid(t, 1)
}

/// Whether a kind is the word `export`.
fn is_export(k: Kind) -> bool
    ensures { result ≡ spec.is_export k }
{
    matches!(k, Kind::Export)
}

/// Whether a kind is the declaration of a type.
fn is_type_decl(k: Kind) -> bool
    ensures { result ≡ spec.is_type_decl k }
{
    matches!(k, Kind::TypeDecl)
}

/// What a declaration with this number declares.
pub fn entry_of(t: &Tree, number: u32) -> Entry
    ensures { result ≡ entries.entry_of t.now number }
{
    Entry {
        exported: is_export(kid(t, 0).kind),
        is_type: is_type_decl(t.kind),
        meaning: Meaning::Decl(number),
    }
}
