//! Checking a program whose files were read.

ghost use Rattle.std.specs.Prelude.{◌≡◌, ◌≤◌, length, IfOk, IfErr, OnOk};
ghost use Rattle.hare_sources.specs.Named.{ArePaired};
ghost use Rattle.hare_unit.specs.declared.checked.Checked.{Checked};
ghost use Rattle.hare_unit.specs.Programs.{IsChecked, IsFaultless};
ghost use Rattle.hare_unit.specs.Whole.{IsWhole};
ghost use Rattle.harec_words.specs.Commands.{AreFiles};
ghost use Rattle.harec_check.specs.Lines.{IsFaultLine, IsRefusal};
ghost use Rattle.harec_check.specs.Stops.{IsJudgeStop};

use crate::stopped::{Refusal, Stopped};
use hare_sources::Sources;
use hare_tree::{Fault, Stop};
use hare_typed::Paths;
use hare_unit::program;
use harec_words::fault_text;
use hx_base::Text;
use std::alloc::{AllocError, Global};

/// The letter of the faults of the language.
const LETTER: u8 = b'E';

/// The number of the last fault of the language that has a name.
const LAST_FAULT: u8 = 49;

/// Checks the program of these files; or else tells its first fault, with its line.
pub(crate) fn judge(alloc: Global, paths: &[Text], srcs: &Sources) -> Result<(), Stopped>
    requires { ArePaired paths.now srcs.now }
    ensures ok { OnOk result ((c : Checked) × IsChecked paths.now srcs.now c × IsFaultless paths.now srcs.now c
        × (AreFiles paths.now → IsWhole c)) }
    ensures err { IfErr result (IsJudgeStop paths.now srcs.now) }
{
    match program(alloc, copied(alloc, paths)?, srcs) {
        Ok(_checked) => Ok(()),
        Err(Stop::Memory) => Err(Stopped::Memory),
        Err(Stop::Fault(fault)) => Err(refused(alloc, paths, fault)),
    }
}

/// A copy of these paths.
fn copied(alloc: Global, paths: &[Text]) -> Result<Paths, AllocError>
    ensures { IfOk result (λ copy. copy ≡ paths.now) }
{
    let mut copy = Paths::new(alloc);
    for path in paths {
        let mut word = Text::new(alloc);
        word.append(path)?;
        copy.push(word)?;
    }
    Ok(copy)
}

/// Why a program with this fault is not checked or not built: the fault, with its line; or want of memory for that. A fault of no file, or
/// with a number that has no name, is answered as want of memory too. There are names of E1 to E49.
pub fn refused(alloc: Global, paths: &[Text], fault: Fault) -> Stopped
    ensures { IsRefusal paths.now fault result }
{
    match line_of(alloc, paths, fault) {
        Ok(line) => Stopped::Refused(Refusal { fault, line }),
        Err(_) => Stopped::Memory,
    }
}

/// The line of a fault. A fault of no file, or with a number that has no name, is answered as want of memory.
fn line_of(alloc: Global, paths: &[Text], fault: Fault) -> Result<Text, AllocError>
    ensures { IfOk result (IsFaultLine paths.now fault) }
{
    let Some(path) = paths.get(fault.place.file as usize) else {
        return Err(AllocError);
    };
    if fault.number == 0 || fault.number > LAST_FAULT {
        return Err(AllocError);
    }
    let line = u64::from(fault.place.line);
    let column = u64::from(fault.place.column);
    fault_text(alloc, path, LETTER, fault.number, line, column)
}
