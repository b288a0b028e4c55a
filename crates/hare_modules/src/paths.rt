//! Paths of modules: those of files, and those that imports name.

ghost use Rattle.std.specs.Prelude.{◌≡◌, ◌≤◌, ◌<◌, ◌==◌, ◌++◌, length, take, drop, position, IfOk, OnOk, IfSome};
ghost use Rattle.hare_modules.specs.Modules as spec;
ghost use Rattle.hare_modules.specs.Uses as uses;

use hare_tree::{Kind, Tree};
use std::alloc::{AllocError, Global};

/// The module of a file, by its path: the directories with `::` between them, where a leading `./` says nothing.
pub fn module_of(alloc: Global, path: &[u8]) -> Result<Vec<u8>, AllocError>
    ensures { IfOk result (λ m. m.items ≡ spec.module_of path.now) }
{
    let mut rest = without_dot(path);
    let mut module = Vec::new(alloc);
    let mut is_first = true;
    while let Some(end) = slash_in(rest) {
        put_name(&mut module, is_first, before(rest, end))?;
        is_first = false;
        rest = behind(rest, end + 1);
    }
    Ok(module)
}

/// Where the first `/` stands, if there is one.
fn slash_in(text: &[u8]) -> Option<usize>
    ensures value { result ≡ position (λ c. c == 47) text.now }
    ensures within { IfSome result (λ at. at < length text.now) }
{
    text.iter().position(|c| *c == b'/')
}

/// The bytes before a place.
fn before(text: &[u8], at: usize) -> &[u8]
    requires { at ≤ length text.now }
    ensures { result.now ≡ take at text.now }
{
    &text[..at]
}

/// The bytes from a place on.
fn behind(text: &[u8], at: usize) -> &[u8]
    requires { at ≤ length text.now }
    ensures { result.now ≡ drop at text.now }
{
    &text[at..]
}

/// The path without a leading `./`.
fn without_dot(path: &[u8]) -> &[u8]
    ensures { result.now ≡ spec.without_dot path.now }
{
    path.strip_prefix(b"./").unwrap_or(path)
}

/// Puts a name behind the others of a path, of which it is or is not the first.
fn put_name(path: &mut Vec<u8>, is_first: bool, name: &[u8]) -> Result<(), AllocError>
    ensures { OnOk result (path.new.items ≡ path.old.items ++ spec.next_name is_first name.now) }
{
    if !is_first {
        path.extend_from_slice(b"::")?;
    }
    path.extend_from_slice(name)
}

/// The kid with so many kids before it; a tree that has no such kid stands for it.
pub fn kid(t: &Tree, i: usize) -> &Tree
    ensures { result.now ≡ uses.kid t.now i }
{
    match t.kids.get(i) {
        Some(k) => k,
        None => t,
    }
}

/// Whether a kind is `use a::b;`.
pub fn is_plain(k: Kind) -> bool
    ensures { result ≡ uses.is_plain k }
{
    matches!(k, Kind::Use)
}

/// Whether a kind is `use n = a::b;`.
pub fn is_alias(k: Kind) -> bool
    ensures { result ≡ uses.is_alias k }
{
    matches!(k, Kind::UseAlias)
}

/// Whether a kind is `use a::{x, y};`.
pub fn is_braced(k: Kind) -> bool
    ensures { result ≡ uses.is_braced k }
{
    matches!(k, Kind::UseNames)
}

/// Whether a kind is a name.
pub fn is_name(k: Kind) -> bool
    ensures { result ≡ uses.is_name_kind k }
{
    matches!(k, Kind::Name)
}

/// The tree of the path of an import.
pub fn path_in(u: &Tree) -> &Tree
    ensures { result.now ≡ uses.path_in u.now }
{
    if is_alias(u.kind) {
        kid(u, 1)
    } else {
        kid(u, 0)
    }
}

/// The module that an import names.
pub fn module_used(alloc: Global, u: &Tree) -> Result<Vec<u8>, AllocError>
    ensures { IfOk result (λ m. m.items ≡ uses.module_used u.now) }
{
    let names = &path_in(u).kids;
    let mut module = Vec::new(alloc);
    for i in 0..names.len() {
        let Some(name) = names.get(i) else {
            return Ok(module);
        };
        put_name(&mut module, i == 0, name.text.bytes())?;
    }
    Ok(module)
}
