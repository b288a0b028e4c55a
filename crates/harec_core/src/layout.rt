//! Laying a file out.

ghost use Rattle.std.specs.Prelude.{◌≡◌, ℕ, ◌<◌, ◌≤◌, ◌-◌, ◌^◌, List, [], ◌∷◌, length, IfOk, IfErr};
ghost use Rattle.hx_io.specs.Causes.{StopsAtFault};
ghost use Rattle.hare_sources.specs.Files.{most_of_file};
ghost use Rattle.harec_words.specs.Commands.{Fmt};
ghost use Rattle.harec_check.specs.Files.{AreTold};
ghost use Rattle.harec_core.specs.Answers.{LeavesOutput};
ghost use Rattle.harec_core.specs.Layouts.{HasLayout};
ghost use Rattle.harec_core.specs.Outside.{Received, Stands, sent};
ghost use Rattle.harec_core.specs.Stages.{IsFound, IsLayoutStop, found_answer};

use crate::carry::emit;
use crate::done::Done;
use hare_fmt::format;
use hare_sources::Sources;
use hare_tree::{Fault, Place, Stop};
use harec_check::{Stopped, read_all, refused};
use hx_base::{Bytes, Text};
use hx_io::{Files, Sink};
use std::alloc::Global;

/// The most bytes of a file.
const MOST_OF_FILE: usize = 1_048_576;

/// The fault of a file with more bytes: E1 at its start.
const TOO_LARGE: Fault = Fault {
    number: 1,
    place: Place {
        file: 0,
        line: 1,
        column: 1,
    },
};

/// Reads the one file, and writes its layout out. The whole layout is made before its first byte is written.
pub fn lay_out<F: Files, O: Sink>(
    alloc: Global,
    paths: &[Text],
    files: &mut F,
    out: &mut O,
) -> Result<Done, Stopped>
    requires one { length paths.now ≡ 1 }
    requires count_of_files { F.faults files.old < 2 ^ 64 - 1 }
    requires count_of_out { O.faults out.old < 2 ^ 64 - 1 }
    ensures cause { (srcs : List (List ℕ)) × AreTold (F.content files.old) paths.now srcs
        × ((fill : ℕ) (text : List ℕ) (input : Received) → text ≡ [] → Stands input.faults → IsFound (record {
          command = Fmt paths.now;
          sources = srcs;
          fill = fill;
          text = text;
          files = record { before = F.faults files.old; now = F.faults files.new };
          input = input;
          out = sent (O.faults out.old) (O.faults out.new) (O.written out.old) (O.written out.new);
        }) paths.now result) }
    ensures leaves { LeavesOutput (Fmt paths.now) (found_answer result) out.old out.new }
    ensures last { StopsAtFault (F.faults files.old) (F.faults files.new) (F.last_failed files.new) }
    ensures same { (p : List ℕ) → F.content files.new p ≡ F.content files.old p }
{
    let srcs = read_all(alloc, paths, files)?;
    let layout = sole_layout(alloc, paths, &srcs)?;
    Ok(emit(layout.bytes(), out))
}

/// The layout of the one file; or its fault, with its line.
fn sole_layout(alloc: Global, paths: &[Text], srcs: &Sources) -> Result<Bytes, Stopped>
    requires one { length srcs.now ≡ 1 }
    ensures ok { IfOk result (λ layout. (source : List ℕ) × (srcs.now ≡ source ∷ []) × HasLayout source layout) }
    ensures err { IfErr result (λ s. (source : List ℕ) × (srcs.now ≡ source ∷ []) × IsLayoutStop paths.now source s) }
{
    match srcs.get(0) {
        Some(src) => layout_of(alloc, paths, src.bytes()),
        None => unreachable!(),
    }
}

/// The same of a file with these bytes.
fn layout_of(alloc: Global, paths: &[Text], src: &[u8]) -> Result<Bytes, Stopped>
    ensures ok { IfOk result (HasLayout src.now) }
    ensures err { IfErr result (IsLayoutStop paths.now src.now) }
{
    if src.len() > MOST_OF_FILE {
        return Err(refused(alloc, paths, TOO_LARGE));
    }
    small_layout(alloc, paths, src)
}

/// The same of a file that is not too large.
fn small_layout(alloc: Global, paths: &[Text], src: &[u8]) -> Result<Bytes, Stopped>
    requires small { length src.now ≤ most_of_file }
    ensures ok { IfOk result (HasLayout src.now) }
    ensures err { IfErr result (IsLayoutStop paths.now src.now) }
{
    match format(alloc, src) {
        Ok(layout) => Ok(layout),
        Err(Stop::Fault(fault)) => Err(refused(alloc, paths, fault)),
        Err(Stop::Memory) => Err(Stopped::Memory),
    }
}
