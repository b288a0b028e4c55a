//! All types of a program are declared before any is judged.

ghost use Rattle.std.specs.Prelude.{◌≡◌, ◌<◌, ◌-◌, ◌^◌, ℕ, [], length, Some, OnOk};
ghost use Rattle.hare_types.specs.Store.{definition_of};
ghost use Rattle.hare_rules.specs.Words.{nomem};
ghost use Rattle.hare_names.specs.Answers.{meaning_in};
ghost use Rattle.hare_saids.specs.Saids.{decls};
ghost use Rattle.hare_whole.specs.Listing.{DefinesNomem};
ghost use Rattle.hare_whole.specs.Listing.{IsDeclared};

use crate::entered::{enter_nomem, enter_types};
use crate::lacking::lacking;
use crate::outline::outlines_of;
use hare_names::Names;
use hare_tree::FileTree;
use hare_types::TypeStore;
use hx_base::Items;
use std::alloc::{AllocError, Global};

/// Declares the types of a program, of which the store says nothing yet, each by the number of its declaration, in the order of files and
/// source, and with what is seen of its size, where paths mean what `names` says: a type has no size where names and error marks come down
/// to `never` or `opaque`. Beside them stands `rt::nomem`, which is defined as `!void`; no other is defined.
///
/// There are fewer than 2^32 - 1 declarations.
///
/// Fails only for want of memory. Takes time in proportion to the declarations and to their names, and no more of the host's stack for
/// longer chains of names.
pub fn declare_all(
    alloc: Global,
    s: &mut TypeStore,
    names: &Names,
    files: &Items<FileTree>,
) -> Result<(), AllocError>
    requires fresh { s.old.declared ≡ [] }
    requires few { length (decls files.now) < 2 ^ 32 - 1 }
    ensures declared { OnOk result (IsDeclared s.new record { decls = decls files.now; means = meaning_in names.now }) }
    ensures nomem { OnOk result (DefinesNomem s.new) }
    ensures undefined { OnOk result ((d t : ℕ) → definition_of s.new d ≡ Some t → d ≡ nomem) }
    ensures empty { OnOk result (s.new.listed ≡ s.old.listed) }
{
    let outlines = outlines_of(alloc, names, files.as_slice())?;
    let lacking = lacking(alloc, &outlines)?;
    enter_types(s, &outlines, &lacking)?;
    enter_nomem(s)?;
    Ok(())
}
