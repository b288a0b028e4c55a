//! Whether what one path says stays as it is when more becomes known of declarations.

ghost use Rattle.std.specs.Prelude.{IsTrue};
ghost use Rattle.hare_steps.specs.Plans.{listing, ArePlaces};
ghost use Rattle.hare_readable.specs.Heads.{MeansKnown, MeansType, IsReadableAt};

use hare_names::Names;
use hare_steps::{DeclPlace, declaration_at};
use hare_tree::{FileTree, Kind, Meaning, Place};
use hx_base::Items;
use rule_judge::DeclTypes;

/// Whether the path of an expression at a place means no declaration of the program, or one that is known. `rt::nomem` is none of the
/// program.
fn is_known(
    names: &Names,
    known: &DeclTypes,
    files: &Items<FileTree>,
    places: &[DeclPlace],
    place: Place,
) -> bool
    requires places { ArePlaces files.now places.now }
    ensures value { IsTrue result → MeansKnown (listing names.now files.now) known.now place }
{
    let Meaning::Decl(number) = names.meaning(place) else {
        return true;
    };
    match declaration_at(files, places, number) {
        Some(_) => known.find(number).is_some(),
        None => true,
    }
}

/// Whether the path of a type at a place means no declaration of the program, or a type.
fn means_type(names: &Names, files: &Items<FileTree>, places: &[DeclPlace], place: Place) -> bool
    requires places { ArePlaces files.now places.now }
    ensures value { IsTrue result → MeansType (listing names.now files.now) place }
{
    let Meaning::Decl(number) = names.meaning(place) else {
        return true;
    };
    match declaration_at(files, places, number) {
        Some(t) => t.kind == Kind::TypeDecl,
        None => true,
    }
}

/// Whether what a node of this kind at this place says as a path stays as it is when more becomes known. Nodes that are no paths say
/// nothing.
pub(crate) fn is_readable_at(
    names: &Names,
    known: &DeclTypes,
    files: &Items<FileTree>,
    places: &[DeclPlace],
    kind: Kind,
    place: Place,
) -> bool
    requires places { ArePlaces files.now places.now }
    ensures value { IsTrue result → IsReadableAt (listing names.now files.now) known.now kind place }
{
    match kind {
        Kind::Path => is_known(names, known, files, places, place),
        Kind::TypePath => means_type(names, files, places, place),
        _ => true,
    }
}
