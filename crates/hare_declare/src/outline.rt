//! What is seen of declarations before any is judged.

ghost use Rattle.std.specs.Prelude.{◌≡◌, ◌<◌, ◌^◌, ◌++◌, length, map, IfOk, OnOk};
ghost use Rattle.hare_names.specs.Answers.{meaning_in};
ghost use Rattle.hare_saids.specs.Saids.{decls};
ghost use Rattle.hare_declare.specs.Outlines as spec;

use crate::seen::{is_type, kid, size_seen};
use hare_names::Names;
use hare_tree::{FileTree, Kids, Tree};
use std::alloc::{AllocError, Global};

/// What the text of a type says of its size, error marks left away.
#[derive(Clone, Copy, Debug, PartialEq, Eq)]
pub enum SizeSeen {
    /// It has a size.
    Has,
    /// It is `never` or `opaque`.
    Lacks,
    /// It names the declaration with this number, and has a size where what that is declared to be has one.
    ThatOf(u32),
}

/// What is seen of a declaration before any is judged.
#[derive(Clone, Copy, Debug, PartialEq, Eq)]
pub struct Outline {
    /// Whether it declares a type.
    pub is_type: bool,
    /// The size of what it is declared to be.
    pub size: SizeSeen,
}

/// The outlines of the declarations of these files, in the order of files and source.
pub(crate) fn outlines_of(
    alloc: Global,
    names: &Names,
    files: &[FileTree],
) -> Result<Vec<Outline>, AllocError>
    requires { length (decls files.now) < 2 ^ 32 }
    ensures { IfOk result (λ os. os.items ≡ spec.outlines record { decls = decls files.now; means = meaning_in names.now }) }
{
    let count = count_decls(files);
    let mut outlines = Vec::new(alloc);
    for file in files {
        push_file(&mut outlines, count, names, &file.decls)?;
    }
    Ok(outlines)
}

/// How many declarations stand in some files.
fn count_decls(files: &[FileTree]) -> usize
    requires { length (decls files.now) < 2 ^ 32 }
    ensures { result ≡ length (decls files.now) }
{
    let mut count = 0;
    for file in files {
        count += file.decls.len();
    }
    count
}

/// Puts the outlines of the declarations of a file behind the others.
fn push_file(
    outlines: &mut Vec<Outline>,
    count: usize,
    names: &Names,
    decls: &Kids,
) -> Result<(), AllocError>
    ensures { OnOk result (outlines.new.items ≡ outlines.old.items ++ map (spec.outline_of count (meaning_in names.now)) decls.now) }
{
    for i in 0..decls.len() {
        let Some(decl) = decls.get(i) else {
            return Ok(());
        };
        outlines.push(outline_of(count, names, decl))?;
    }
    Ok(())
}

/// The outline of a declaration, one of so many.
fn outline_of(count: usize, names: &Names, t: &Tree) -> Outline
    ensures { result ≡ spec.outline_of count (meaning_in names.now) t.now }
{
    Outline {
        is_type: is_type(t.kind),
        size: size_seen(count, names, kid(t, 2)),
    }
}
