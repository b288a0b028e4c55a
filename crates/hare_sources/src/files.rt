//! Files, from their bytes to their trees.

ghost use Rattle.std.specs.Prelude.{◌≡◌, ◌≤◌, List, length, IfOk, IfErr};
ghost use Rattle.hare_tree.specs.declared.place.Fault.{Fault};
ghost use Rattle.hare_tree.specs.declared.tree.FileTree.{FileTree};
ghost use Rattle.hare_tree.specs.Spell.{start_of};
ghost use Rattle.hare_decl.specs.Answers.{Stops};
ghost use Rattle.hare_sources.specs.Files as spec;

use hare_decl::parse_source;
use hare_names::Files2;
use hare_tree::{Fault, FileTree, Place, Stop};
use hx_base::{Bytes, Items};
use std::alloc::Global;

/// The bytes of the files of a program, in the order of the command line.
pub type Sources = Items<Bytes>;

/// The most bytes of a file.
const MOST_OF_FILE: usize = 1_048_576;

/// The most bytes of all files together.
const MOST_OF_ALL: usize = 4_194_304;

/// The trees of the files of a program, of which there are at most 65,536; or their first fault. One file is done with before the next is
/// looked at: more than 1,048,576 bytes are E1, and more than 4,194,304 together with the files in front of it E2, both at the file's
/// start; then comes its first fault of tokens and syntax (E3 to E10).
///
/// The time is linear in the bytes of the files up to the one that has a fault.
pub fn read_files(alloc: Global, srcs: &Sources) -> Result<Files2, Stop<Fault>>
    requires { length srcs.now ≤ 65536 }
    ensures ok { IfOk result (λ ts. spec.AreRead srcs.now ts) }
    ensures err { IfErr result (Stops (spec.IsFaultOfFiles srcs.now)) }
    ensures only_trees { (ts : List FileTree) → spec.AreRead srcs.now ts → spec.GivesTrees ts result }
    ensures only_fault { (f : Fault) → spec.IsFaultOfFiles srcs.now f → spec.GivesFault f result }
{
    files_of(alloc, srcs)
}

/// The same, by the files one after another.
fn files_of(alloc: Global, srcs: &Sources) -> Result<Files2, Stop<Fault>>
    requires { length srcs.now ≤ 65536 }
    ensures ok { IfOk result (λ ts. spec.AreRead srcs.now ts) }
    ensures err { IfErr result (Stops (spec.IsFaultOfFiles srcs.now)) }
{
    let mut trees = Files2::new(alloc);
    let mut before = 0;
    for i in 0..srcs.len() {
        let Some(src) = srcs.get(i) else {
            unreachable!();
        };
        let tree = read_file(alloc, i as u32, before, src.bytes())?;
        before += src.bytes().len();
        trees.push(tree)?;
    }
    Ok(trees)
}

/// The tree of a file, or its fault. The files in front of it have so many bytes together.
fn read_file(alloc: Global, file: u32, before: usize, src: &[u8]) -> Result<FileTree, Stop<Fault>>
    requires { before ≤ spec.most_of_all }
    ensures ok { IfOk result (λ tree. spec.IsRead before file src.now tree) }
    ensures err { IfErr result (Stops (spec.IsFaultOfFile before file src.now)) }
{
    if src.len() > MOST_OF_FILE {
        return Err(Stop::Fault(at_start(1, file)));
    }
    if before + src.len() > MOST_OF_ALL {
        return Err(Stop::Fault(at_start(2, file)));
    }
    parse_source(alloc, file, src)
}

/// The fault with this number at the start of a file.
fn at_start(number: u8, file: u32) -> Fault
    ensures { result ≡ record { number = number; place = start_of file } }
{
    Fault {
        number,
        place: Place {
            file,
            line: 1,
            column: 1,
        },
    }
}
