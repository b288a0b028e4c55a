//! Programs.

ghost use Rattle.std.specs.Prelude.{IfOk, IfErr};
ghost use Rattle.hare_sources.specs.Named.{ArePaired};
ghost use Rattle.hare_unit.specs.Programs.{IsChecked, IsFaultless, IsOnlyProgramStop, IsProgramStop};
ghost use Rattle.hare_unit.specs.Whole.{IsWhole};
ghost use Rattle.harec_words.specs.Commands.{AreFiles};

use crate::limits::entry_of;
use crate::phases::{Typing, judge};
use hare_filed::law_programs_are_filed;
use hare_names::{Names, law_locals_are_in_scope};
use hare_sole::law_one_fault_of_phases;
use hare_sources::{Sources, law_one_early_fault, read};
use hare_tree::{Fault, Stop};
use hare_typed::{Paths, Program};
use std::alloc::Global;

/// A program that has been checked.
#[derive(Drop)]
pub struct Checked {
    /// Its typed declarations over its types, with its paths and its entry.
    pub program: Program,
    /// What the paths in its declarations mean.
    pub names: Names,
}

/// The checked program of these files, or its first fault. Files are looked at first, one after another (E1 to E10), then names (E11 to
/// E16), then what declarations depend on (E17, E23), then declarations in their order, then bodies in the order of the source, and at last
/// the entry (E46), frames (E47) and sums (E48). A later phase is looked at only where all earlier ones found nothing.
///
/// There is one path for each file, and at most 65,536 of them. Answered as want of memory, too, are values of declarations whose constant
/// is not worked out (`hare_const::constant` says which), and a `switch` over what has no such constants. No clause says that nothing else
/// is. Nothing recurses in the host deeper than a tree of the syntax.
pub fn program(alloc: Global, paths: Paths, srcs: &Sources) -> Result<Checked, Stop<Fault>>
    requires { ArePaired paths srcs.now }
    ensures ok { IfOk result (IsChecked paths srcs.now) }
    ensures err { IfErr result (IsProgramStop paths srcs.now) }

    // Where the paths are words that name files, it is whole.
    ensures whole { IfOk result (λ c. AreFiles paths → IsWhole c) }

    // A program is checked or has one first fault, and never both: over the store with which its checking ends, and over each that goes on
    // from it. A fault of files, of names and of circles is the only one over every store.
    ensures only { IfOk result (IsFaultless paths srcs.now) }
    ensures only_fault { IfErr result (IsOnlyProgramStop paths srcs.now) }
{
    law_programs_are_filed();
    law_locals_are_in_scope();
    law_one_early_fault();
    law_one_fault_of_phases();
    let named = read(alloc, paths.as_slice(), srcs)?;
    let mut typing = judge(alloc, &named)?;
    let entry = entry_of(alloc, paths.as_slice(), &named, &mut typing)?;
    let Typing { types, decls } = typing;
    Ok(Checked {
        program: Program {
            types,
            decls,
            paths,
            entry,
        },
        names: named.names,
    })
}
