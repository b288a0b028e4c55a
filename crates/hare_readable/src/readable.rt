//! Whether what a tree names is known.

ghost use Rattle.std.specs.Prelude.{IsTrue};
ghost use Rattle.hare_steps.specs.Plans.{listing, ArePlaces};
ghost use Rattle.hare_turns.specs.Stages.{AreReadable};
ghost use Rattle.hare_readable.specs.Heads.{InTree, InKids, IsReadableHead};

use crate::paths::is_readable_at;
use hare_names::Names;
use hare_steps::DeclPlace;
use hare_tree::{FileTree, Kids, Tree};
use hx_base::Items;
use rule_judge::DeclTypes;

/// Whether what the paths of a tree say stays as it is when more becomes known of declarations: of the declarations of the program each
/// path of an expression means one that is known, if any, and each path of a type one of a type. The call goes as deep in the host as the
/// tree is. `places` are those of the declarations of these files.
pub fn is_readable(
    names: &Names,
    known: &DeclTypes,
    files: &Items<FileTree>,
    places: &[DeclPlace],
    t: &Tree,
) -> bool
    requires places { ArePlaces files.now places.now }
    ensures value { IsTrue result → AreReadable (listing names.now files.now) known.now t.now }
{
    is_tree_readable(names, known, files, places, t)
}

/// Whether each node of a tree is so.
#[cycle(readable)]
fn is_tree_readable(
    names: &Names,
    known: &DeclTypes,
    files: &Items<FileTree>,
    places: &[DeclPlace],
    t: &Tree,
) -> bool
    requires places { ArePlaces files.now places.now }
    ensures value { IsTrue result → InTree (IsReadableHead (listing names.now files.now) known.now) t.now }
{
    if !is_readable_at(names, known, files, places, t.kind, t.place) {
        return false;
    }
    are_kids_readable(names, known, files, places, &t.kids)
}

/// Whether each node of some trees is so.
#[cycle(readable)]
fn are_kids_readable(
    names: &Names,
    known: &DeclTypes,
    files: &Items<FileTree>,
    places: &[DeclPlace],
    ts: &Kids,
) -> bool
    requires places { ArePlaces files.now places.now }
    ensures value { IsTrue result → InKids (IsReadableHead (listing names.now files.now) known.now) ts.now }
{
    for i in 0..ts.len() {
        let Some(t) = ts.get(i) else {
            return false;
        };
        if !is_tree_readable(names, known, files, places, t) {
            return false;
        }
    }
    true
}
