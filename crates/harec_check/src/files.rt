//! Reading all files of a program.

ghost use Rattle.std.specs.Prelude.{◌≡◌, ℕ, ◌∷◌, [], ◌++◌, true, List, IfOk, IfErr, IsErrOf, IfSome};
ghost use Rattle.hx_io.specs.Causes.{CountsFile, StopsAtFault};
ghost use Rattle.harec_check.specs.Files.{AreTold};
ghost use Rattle.harec_check.specs.Stops.{IsReadStop};

use crate::stopped::Stopped;
use hare_sources::Sources;
use hx_base::Text;
use hx_io::{FileError, Files};
use std::alloc::Global;

/// The bytes of the files at these paths, in their order: of each those that it tells, where it tells any. Where one is not read, none
/// behind it is.
pub fn read_all<F: Files>(alloc: Global, paths: &[Text], files: &mut F) -> Result<Sources, Stopped>
    ensures ok { IfOk result (λ srcs. AreTold (F.content files.old) paths.now srcs × (F.faults files.new ≡ F.faults files.old)) }
    ensures err { IfErr result (IsReadStop (F.content files.old) paths.now (F.faults files.old) (F.faults files.new)) }
    ensures last { StopsAtFault (F.faults files.old) (F.faults files.new) (F.last_failed files.new) }
    ensures same { (p : List ℕ) → F.content files.new p ≡ F.content files.old p }
{
    let mut srcs = Sources::new(alloc);
    for (i, path) in paths.iter().enumerate() {
        match read_one(alloc, path, files, &mut srcs) {
            Ok(()) => {}
            Err(FileError::Failed) => return Err(Stopped::Unread(i)),
            Err(FileError::Memory) => return Err(Stopped::Memory),
        }
    }
    Ok(srcs)
}

/// Puts the bytes of the file at a path behind those of the others.
fn read_one<F: Files>(
    alloc: Global,
    path: &Text,
    files: &mut F,
    srcs: &mut Sources,
) -> Result<(), FileError>
    ensures bytes { IfOk result (λ done. (src : List ℕ) × (srcs.new ≡ srcs.old ++ src ∷ []) ×
        IfSome (F.content files.old path.now) (λ told. src ≡ told)) }
    ensures same { (p : List ℕ) → F.content files.new p ≡ F.content files.old p }
    ensures count { CountsFile (F.faults files.old) (F.faults files.new) result }
    ensures last { IsErrOf result FileError.Failed → F.last_failed files.new ≡ true }
{
    let src = files.read(alloc, path)?;
    match srcs.push(src) {
        Ok(()) => Ok(()),
        Err(_) => Err(FileError::Memory),
    }
}
