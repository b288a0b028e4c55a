//! Where declarations stand, by their numbers.

ghost use Rattle.std.specs.Prelude.{◌≡◌, IfOk, OnOk, slice_get, option_copied};
ghost use Rattle.hare_saids.specs.Saids.{decls};
ghost use Rattle.hare_steps.specs.Plans.{ArePlaces};
ghost use Rattle.hare_steps.specs.Taken.{PutsPlaces};

use hare_tree::{FileTree, Tree};
use hx_base::Items;
use std::alloc::{AllocError, Global};

/// Where a declaration stands: in which file, and behind how many others there.
#[derive(Clone, Copy, Debug, PartialEq, Eq)]
pub struct DeclPlace {
    pub file: usize,
    pub decl: usize,
}

/// Where the declarations of these files stand, in the order of files and source: by their numbers.
pub fn places(alloc: Global, files: &Items<FileTree>) -> Result<Vec<DeclPlace>, AllocError>
    ensures { IfOk result (λ ps. ArePlaces files.now ps.items) }
{
    let mut places = Vec::new(alloc);
    for file in 0..files.len() {
        let Some(tree) = files.get(file) else {
            return Ok(places);
        };
        push_places(&mut places, file, tree.decls.len())?;
    }
    Ok(places)
}

/// Puts the places of the declarations of a file that has so many behind others.
fn push_places(places: &mut Vec<DeclPlace>, file: usize, count: usize) -> Result<(), AllocError>
    ensures { OnOk result (PutsPlaces file count places.old.items places.new.items) }
{
    for decl in 0..count {
        places.push(DeclPlace { file, decl })?;
    }
    Ok(())
}

/// The declaration with a number, where these are the places of the declarations of files; none where there are not so many. Takes constant
/// time.
pub fn declaration_at<'t>(
    files: &'t Items<FileTree>,
    places: &[DeclPlace],
    number: u32,
) -> Option<&'t Tree>
    requires { ArePlaces files.now places.now }
    ensures { option_copied result ≡ slice_get (decls files.now) number }
{
    let place = places.get(number as usize)?;
    let file = files.get(place.file)?;
    file.decls.get(place.decl)
}
