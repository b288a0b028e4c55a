//! The names of a program.

ghost use Rattle.std.specs.Prelude.{◌≡◌, ◌<◌, ◌^◌, [], fold, sum_by, OnOk, IfOk, IfErr};
ghost use Rattle.std.specs.List.{flat_map};
ghost use Rattle.hare_tree.specs.declared.place.Fault as fault;
ghost use Rattle.hare_tree.specs.Node.{nodes_of};
ghost use Rattle.hare_directory.specs.Seen.{tables_of};
ghost use Rattle.hare_modules.specs.Modules.{sources};
ghost use Rattle.hare_modules.specs.Order.{earlier};
ghost use Rattle.hare_names.specs.Scopes.{bindings_in, bindings_among};
ghost use Rattle.hare_names.specs.Violations.{IsViolation, AreMeanings};
ghost use Rattle.hare_names.specs.Noted as noted;
ghost use Rattle.hare_names.specs.Doubled as names;
ghost use Rattle.hare_names.specs.Answers.{AreFiles, StopsAtFirst, meaning_in};

use crate::doubled::{Doubled, doubled_from};
use crate::locals::Locals;
use crate::names::Names;
use crate::notes::Notes;
use crate::rising::Rising;
use crate::walk::{Setting, walk};
use hare_directory::{Directory, look};
use hare_modules::earlier_of;
use hare_tree::{Fault, FileTree, Kids, Stop, Tree};
use hx_base::{Items, Text};
use std::alloc::{AllocError, Global};

/// The trees of files, in the order of their paths.
pub type Files2 = Items<FileTree>;

/// What each path of a program means; or of all violations of its names (E11 to E16) the one that counts first: that of the first file,
/// there the one at the least place, and at one place the smaller number.
///
/// There is one tree for each path, in the language, which stands over tokens of the file with its number in that order; and there are
/// fewer than 2^32 - 1 declarations, and fewer than 2^32 - 1 bindings.
///
/// Takes time in proportion to the nodes of the trees, but for look-ups of names.
pub fn resolve(alloc: Global, paths: &[Text], files: &Files2) -> Result<Names, Stop<Fault>>
    requires { AreFiles paths.now files.now }

    // The names tell of each path what it means, and of no other place anything.
    ensures ok { IfOk result (λ n. AreMeanings (sources paths.now files.now) (meaning_in n)) }
    // They are given where there is no violation alone.
    ensures sound { OnOk result ((f : fault.Fault) → IsViolation (sources paths.now files.now) f → ⊥) }

    // The fault is the violation that counts first.
    ensures err { IfErr result (StopsAtFirst (sources paths.now files.now)) }
{
    let (directory, first) = look(alloc, paths, files)?;
    let mut notes = Notes {
        places: Rising::new(alloc),
        first: None,
    };
    let mut doubled = doubled_from(alloc, first);
    note_files(alloc, &directory, &mut notes, &mut doubled, files)?;
    match earlier_of(doubled.first, notes.first) {
        Some(fault) => Err(Stop::Fault(fault)),
        None => Ok(Names::new(notes.places)),
    }
}

/// Notes the declarations of all files. `doubled` takes in the violations at equal names of parameters or fields.
fn note_files<'a>(
    alloc: Global,
    directory: &Directory<'_>,
    notes: &mut Notes,
    doubled: &mut Doubled<'a>,
    files: &'a Files2,
) -> Result<(), AllocError>
    requires { sum_by (λ t. bindings_among (nodes_of t.decls)) files.now < 2 ^ 32 }
    ensures noted { OnOk result (notes.new ≡ noted.files_noted (tables_of directory.now) 0 notes.old files.now) }
    ensures doubled { OnOk result (doubled.new.first ≡ fold earlier doubled.old.first (flat_map names.doubled_names files.now)) }
{
    for file in 0..files.len() {
        let Some(tree) = files.get(file) else {
            return Ok(());
        };
        let decls = &tree.decls;
        let setting = Setting {
            directory: &*directory,
            file,
        };
        note_decls(alloc, setting, notes, doubled, decls)?;
    }
    Ok(())
}

/// The same of the declarations of a file.
fn note_decls<'a>(
    alloc: Global,
    setting: Setting<'_>,
    notes: &mut Notes,
    doubled: &mut Doubled<'a>,
    decls: &'a Kids,
) -> Result<(), AllocError>
    requires { bindings_among (nodes_of decls.now) < 2 ^ 32 }
    ensures noted { OnOk result (notes.new ≡ fold (noted.decl_noted (tables_of setting.entry.directory.now) setting.entry.file) notes.old
        decls.now) }
    ensures doubled { OnOk result (doubled.new.first ≡ fold earlier doubled.old.first (flat_map names.doubled_in decls.now)) }
{
    let mut locals = Locals::new(alloc);
    for i in 0..decls.len() {
        let Some(decl) = decls.get(i) else {
            return Ok(());
        };
        note_decl(setting, &mut locals, notes, doubled, decl)?;
    }
    Ok(())
}

/// The same of a declaration, outside of which no locals are visible.
fn note_decl<'a>(
    setting: Setting<'_>,
    locals: &mut Locals<'a>,
    notes: &mut Notes,
    doubled: &mut Doubled<'a>,
    decl: &'a Tree,
) -> Result<(), AllocError>
    requires room { bindings_in decl.now < 2 ^ 32 }
    requires none { locals.old ≡ [] }
    ensures none { OnOk result (locals.new ≡ []) }
    ensures noted { OnOk result (notes.new ≡ noted.decl_noted (tables_of setting.entry.directory.now) setting.entry.file notes.old decl.now) }
    ensures doubled { OnOk result (doubled.new.first ≡ fold earlier doubled.old.first (names.doubled_in decl.now)) }
{
    walk(setting, locals, notes, doubled, decl, 0)?;
    locals.back_to(0);
    Ok(())
}
