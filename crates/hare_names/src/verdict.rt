//! What the tables of a program say of a path.

ghost use Rattle.std.specs.Prelude.{◌≡◌, ◌<◌, ◌+◌, ◌==◌, ◌&&◌, ◌∷◌, [], MatchOption, length, slice_index};
ghost use Rattle.hare_tree.specs.Spell.{parts};
ghost use Rattle.hare_directory.specs.Seen.{tables_of};
ghost use Rattle.hare_modules.specs.Directory as tables;
ghost use Rattle.hare_blocks.specs.Scopes.{number_of};
ghost use Rattle.hare_names.specs.Tables as spec;

use crate::locals::Locals;
use hare_directory::Directory;
use hare_modules::{Entry, Imported};
use hare_tree::Meaning;

/// What is said of a path.
#[derive(Clone, Copy, Debug, PartialEq, Eq)]
pub enum Verdict {
    /// It means this.
    Means(Meaning),
    /// It violates the rule with this number.
    Fails(u8),
}

/// What is said of the path with this text in a file, where these locals are visible.
pub fn judge(
    directory: &Directory<'_>,
    file: usize,
    is_type: bool,
    locals: &Locals<'_>,
    text: &[u8],
) -> Verdict
    ensures { result ≡ spec.verdict (tables_of directory.now) file is_type locals.now (parts text.now) }
{
    let (name, rest) = first_name(text);
    let Some(rest) = rest else {
        return name_verdict(directory, file, is_type, locals, name);
    };
    let (member, more) = first_name(rest);
    match more {
        None => pair_verdict(directory, file, is_type, name, member),
        Some(_) => Verdict::Fails(13),
    }
}

/// The first name of a path, and the path behind its `::`, if there is one.
fn first_name(text: &[u8]) -> (&[u8], Option<&[u8]>)
    ensures { MatchOption result.1 (parts text.now ≡ result.0.now ∷ []) (λ rest. parts text.now ≡ result.0.now ∷ parts rest.now) }
{
    for i in 0..text.len() {
        if ends_name(text, i) {
            return (&text[..i], Some(&text[i + 2..]));
        }
    }
    (text, None)
}

/// Whether `::` stands at a place of a text.
fn ends_name(text: &[u8], i: usize) -> bool
    requires { i < length text.now }
    ensures { result ≡ (slice_index text.now i == 58 && slice_index text.now (i + 1) == 58) }
{
    text[i] == b':' && i + 1 < text.len() && text[i + 1] == b':'
}

/// A path of one name.
fn name_verdict(
    directory: &Directory<'_>,
    file: usize,
    is_type: bool,
    locals: &Locals<'_>,
    name: &[u8],
) -> Verdict
    ensures { result ≡ spec.name_verdict (tables_of directory.now) file is_type name.now (number_of name.now locals.now) }
{
    if let Some(number) = locals.find(name) {
        return local_verdict(is_type, number);
    }
    match own_at(directory, file, name) {
        Some(entry) => fit(is_type, entry),
        None => imported_verdict(directory, file, is_type, name),
    }
}

/// A path of the name of a module and of a member.
fn pair_verdict(
    directory: &Directory<'_>,
    file: usize,
    is_type: bool,
    name: &[u8],
    member: &[u8],
) -> Verdict
    ensures { result ≡ spec.pair_verdict (tables_of directory.now) is_type member.now
        (tables.import_at (tables_of directory.now) file name.now) }
{
    let Some(import) = import_at(directory, file, name) else {
        return Verdict::Fails(13);
    };
    if !import.whole {
        return Verdict::Fails(13);
    }
    match import.number {
        Some(number) => entry_verdict(is_type, item_at(directory, number, member)),
        None => Verdict::Fails(13),
    }
}

/// A name that is no local and not declared in the file's module.
fn imported_verdict(directory: &Directory<'_>, file: usize, is_type: bool, name: &[u8]) -> Verdict
    ensures { result ≡ spec.imported_verdict (tables_of directory.now) is_type name.now
        (tables.import_at (tables_of directory.now) file name.now) }
{
    let Some(import) = import_at(directory, file, name) else {
        return Verdict::Fails(13);
    };
    if import.whole {
        return Verdict::Fails(13);
    }
    exported_only(is_type, member_at(directory, name, import.number))
}

/// What a module that is known by its number declares under a name.
fn member_at(directory: &Directory<'_>, name: &[u8], number: Option<usize>) -> Option<Entry>
    ensures { result ≡ spec.member_at (tables_of directory.now) name.now number }
{
    match number {
        Some(number) => item_at(directory, number, name),
        None => None,
    }
}

/// A member that is imported by itself.
fn exported_only(is_type: bool, entry: Option<Entry>) -> Verdict
    ensures { result ≡ spec.exported_only is_type entry }
{
    match entry {
        Some(entry) => {
            if entry.exported {
                fit(is_type, entry)
            } else {
                Verdict::Fails(13)
            }
        }
        None => Verdict::Fails(13),
    }
}

/// A member behind the name of its module.
fn entry_verdict(is_type: bool, entry: Option<Entry>) -> Verdict
    ensures { result ≡ spec.entry_verdict is_type entry }
{
    match entry {
        Some(entry) => {
            if entry.exported {
                fit(is_type, entry)
            } else {
                Verdict::Fails(14)
            }
        }
        None => Verdict::Fails(15),
    }
}

/// What may stand there, if it is a type or none has to.
fn fit(is_type: bool, entry: Entry) -> Verdict
    ensures { result ≡ spec.fit is_type entry }
{
    if is_type && !entry.is_type {
        Verdict::Fails(13)
    } else {
        Verdict::Means(entry.meaning)
    }
}

/// A local, which is no type.
fn local_verdict(is_type: bool, number: u32) -> Verdict
    ensures { result ≡ spec.local_verdict is_type number }
{
    if is_type {
        Verdict::Fails(13)
    } else {
        Verdict::Means(Meaning::Local(number))
    }
}

/// What a name of the module with this number means.
fn item_at(directory: &Directory<'_>, number: usize, name: &[u8]) -> Option<Entry>
    ensures { result ≡ tables.item_at (tables_of directory.now) number name.now }
{
    match directory.items.get(number) {
        Some(table) => table.get(name),
        None => None,
    }
}

/// What a name of the module of a file means.
fn own_at(directory: &Directory<'_>, file: usize, name: &[u8]) -> Option<Entry>
    ensures { result ≡ tables.own_at (tables_of directory.now) file name.now }
{
    match directory.homes.get(file) {
        Some(home) => item_at(directory, *home, name),
        None => None,
    }
}

/// What a name that a file imports stands for.
fn import_at(directory: &Directory<'_>, file: usize, name: &[u8]) -> Option<Imported>
    ensures { result ≡ tables.import_at (tables_of directory.now) file name.now }
{
    match directory.imports.get(file) {
        Some(table) => table.get(name),
        None => None,
    }
}
