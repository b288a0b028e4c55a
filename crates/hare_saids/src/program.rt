//! What all declarations of a program say.

ghost use Rattle.std.specs.Prelude.{◌≡◌, ◌<◌, ◌^◌, ◌++◌, length, map, IfOk, OnOk};
ghost use Rattle.hare_names.specs.Answers.{meaning_in};
ghost use Rattle.hare_depends.specs.Circles.{AllWithin};
ghost use Rattle.hare_depends.specs.Said.{said_of};
ghost use Rattle.hare_saids.specs.Saids as spec;

use crate::declaration::said_of;
use hare_depends::Said;
use hare_names::Names;
use hare_tree::{FileTree, Kids};
use hx_base::Items;
use std::alloc::{AllocError, Global};

/// What each declaration of these files says of the others, in the order of files and source, where paths mean what `names` says: what it
/// holds by value, and what it names. A declaration's number is how many stand before it; there are fewer than 2^32 of them.
///
/// Fails only for want of memory. Takes time in proportion to the trees.
pub fn saids(alloc: Global, files: &Items<FileTree>, names: &Names) -> Result<Vec<Said>, AllocError>
    requires few { length (spec.decls files.now) < 2 ^ 32 }
    ensures said { IfOk result (λ ss. ss.items ≡ spec.saids files.now (meaning_in names.now)) }
    ensures within { IfOk result (λ ss. AllWithin ss.items) }
{
    let count = count_decls(files.as_slice());
    let mut saids = Vec::new(alloc);
    for file in files.as_slice() {
        push_file(alloc, &mut saids, count, names, &file.decls)?;
    }
    Ok(saids)
}

/// How many declarations stand in some files.
fn count_decls(files: &[FileTree]) -> usize
    requires { length (spec.decls files.now) < 2 ^ 32 }
    ensures { result ≡ length (spec.decls files.now) }
{
    let mut count = 0;
    for file in files {
        count += file.decls.len();
    }
    count
}

/// Puts what the declarations of a file say behind the others.
fn push_file(
    alloc: Global,
    saids: &mut Vec<Said>,
    count: usize,
    names: &Names,
    decls: &Kids,
) -> Result<(), AllocError>
    ensures { OnOk result (saids.new.items ≡ saids.old.items ++ map (said_of count (meaning_in names.now)) decls.now) }
{
    for i in 0..decls.len() {
        let Some(decl) = decls.get(i) else {
            return Ok(());
        };
        let said = said_of(alloc, count, names, decl)?;
        saids.push(said)?;
    }
    Ok(())
}
