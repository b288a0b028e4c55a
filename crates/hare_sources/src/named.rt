//! Files with what their paths mean.

ghost use Rattle.std.specs.Prelude.{◌≡◌, length, IfOk, IfErr};
ghost use Rattle.hare_tree.specs.declared.place.Fault.{Fault};
ghost use Rattle.hare_modules.specs.Modules.{sources};
ghost use Rattle.hare_names.specs.Answers.{AreFiles, meaning_in};
ghost use Rattle.hare_decl.specs.Answers.{Stops};
ghost use Rattle.hare_sources.specs.Files.{AreRead, GivesFault};
ghost use Rattle.hare_sources.specs.Named as spec;

use crate::files::{Sources, read_files};
use hare_names::{Files2, Names, resolve};
use hare_tree::{Fault, Stop};
use hx_base::Text;
use std::alloc::Global;

/// The trees of the files of a program, and what their paths mean.
#[derive(Drop)]
pub struct Named {
    /// The trees, in the order of the files.
    pub files: Files2,
    /// What each path in them means.
    pub names: Names,
}

/// The trees of the files of a program and what their paths mean; or the first fault of its files (E1 to E10), and where they have none the
/// violation of names that counts first (E11 to E16).
///
/// There is one path for each file, and at most 65,536 of them. The time is linear in the bytes, but for look-ups of names.
pub fn read(alloc: Global, paths: &[Text], srcs: &Sources) -> Result<Named, Stop<Fault>>
    requires { spec.ArePaired paths.now srcs.now }
    ensures ok { IfOk result (λ n. spec.AreNamed paths.now srcs.now n.files (meaning_in n.names)) }
    ensures err { IfErr result (Stops (spec.IsEarlyFault paths.now srcs.now)) }
    ensures only_fault { (f : Fault) → spec.IsEarlyFault paths.now srcs.now f → GivesFault f result }
{
    named_of(alloc, paths, srcs)
}

/// The same, by files and names one after another.
fn named_of(alloc: Global, paths: &[Text], srcs: &Sources) -> Result<Named, Stop<Fault>>
    requires { spec.ArePaired paths.now srcs.now }
    ensures ok { IfOk result (λ n. spec.AreNamed paths.now srcs.now n.files (meaning_in n.names)) }
    ensures err { IfErr result (Stops (spec.IsEarlyFault paths.now srcs.now)) }
{
    let files = read_files(alloc, srcs)?;
    let names = resolve(alloc, paths, &files)?;
    Ok(Named { files, names })
}
