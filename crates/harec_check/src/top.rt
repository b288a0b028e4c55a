//! Files to a checked program.

ghost use Rattle.std.specs.Prelude.{◌≡◌, ℕ, ◌≤◌, List, length, IfOk, IfErr};
ghost use Rattle.hx_io.specs.Causes.{StopsAtFault};
ghost use Rattle.harec_check.specs.Stops.{AreChecked, IsStop};

use crate::files::read_all;
use crate::judged::judge;
use crate::stopped::Stopped;
use hare_sources::Sources;
use hx_base::Text;
use hx_io::Files;
use std::alloc::Global;

/// The bytes of the files at these paths, in their order, where the program that they are is checked. Else it says why it is not: by the
/// first fault of the program, with its line; that a file was not read, with the number of one of the paths; or by want of memory, where no
/// file failed.
///
/// There are at most 65,536 paths. All files are read in their order before anything is checked, and no file is read behind one that
/// failed. Of a file that does not tell its bytes nothing is said but that there are some by which its program was checked.
pub fn check<F: Files>(alloc: Global, paths: &[Text], files: &mut F) -> Result<Sources, Stopped>
    requires few { length paths.now ≤ 65536 }

    // All files were read, and the program of these bytes is checked, has no fault, and is whole where the paths name files.
    ensures ok { IfOk result (AreChecked (F.content files.old) paths.now (F.faults files.old) (F.faults files.new)) }

    // A refused program has this first fault, and no other, with this line. A file was not read exactly where the count of faults rose;
    // from 2^64 - 1 it rises no more.
    ensures err { IfErr result (IsStop (F.content files.old) paths.now (F.faults files.old) (F.faults files.new)) }

    // Where a read failed, just one did, and it was the last: no file is read behind one that failed.
    ensures last { StopsAtFault (F.faults files.old) (F.faults files.new) (F.last_failed files.new) }

    // What the paths hold stays as it is.
    ensures same { (p : List ℕ) → F.content files.new p ≡ F.content files.old p }
{
    let srcs = read_all(alloc, paths, files)?;
    judge(alloc, paths, &srcs)?;
    Ok(srcs)
}
