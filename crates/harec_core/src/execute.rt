//! Running the text of a file.

ghost use Rattle.std.specs.Prelude.{◌≡◌, ℕ, ◌<◌, ◌-◌, ◌^◌, List, [], length, IfOk, IfErr, IfSome, IsTrue};
ghost use Rattle.hx_io.specs.Causes.{StopsAtFault};
ghost use Rattle.harec_words.specs.Commands.{AreArguments, Exec};
ghost use Rattle.harec_words.specs.Faults.{fault_line, has_line};
ghost use Rattle.harec_check.specs.Files.{AreTold};
ghost use Rattle.harec_core.specs.Answers.{LeavesInput, LeavesOutput};
ghost use Rattle.harec_core.specs.Log.{text_letter};
ghost use Rattle.harec_core.specs.Outside.{received, sent};
ghost use Rattle.harec_core.specs.Stages.{IsFound, IsPrintStop, IsTextStop, found_answer};
ghost use Rattle.harec_core.specs.Texts.{IsPrinted, at_start};

use crate::answer::IlFault;
use crate::done::{Done, TextRefusal};
use crate::run::run_module;
use harec_check::Stopped;
use harec_words::fault_text;
use hx_base::{Bytes, Text};
use hx_io::{FileError, Files, Sink, Source};
use il_code::{Module, Stop, valid};
use il_read::{law_recoverable, read_printed};
use std::alloc::{AllocError, Global};

/// The most bytes of a text.
const MOST_OF_TEXT: usize = 67_108_864;

/// The letter of the faults of a text.
const LETTER: u8 = b'I';

/// Reads the one file, whose content becomes the text, and runs the module that the text is, with these arguments, a fill byte and a budget
/// of units. A text with too many bytes, and one that is not the printed text of a valid module, is refused, with its line.
pub fn execute<F: Files, I: Source, O: Sink>(
    alloc: Global,
    paths: &[Text],
    units: u64,
    args: &[Text],
    files: &mut F,
    input: &mut I,
    out: &mut O,
    fill: u8,
    text: &mut Bytes,
) -> Result<Done, Stopped>
    requires empty { text.old ≡ [] }
    requires one { length paths.now ≡ 1 }
    requires few { AreArguments args.now }
    requires count_of_files { F.faults files.old < 2 ^ 64 - 1 }
    ensures cause { (srcs : List (List ℕ)) × AreTold (F.content files.old) paths.now srcs
        × IsFound (record {
          command = Exec units paths.now args.now;
          sources = srcs;
          fill = fill;
          text = text.new;
          files = record { before = F.faults files.old; now = F.faults files.new };
          input = received (I.faults input.old) (I.faults input.new) (I.left input.old) (I.left input.new);
          out = sent (O.faults out.old) (O.faults out.new) (O.written out.old) (O.written out.new);
        }) paths.now result }
    ensures unread { LeavesInput (Exec units paths.now args.now) (found_answer result) input.old input.new }
    ensures leaves { LeavesOutput (Exec units paths.now args.now) (found_answer result) out.old out.new }
    ensures last { StopsAtFault (F.faults files.old) (F.faults files.new) (F.last_failed files.new) }
    ensures same { (p : List ℕ) → F.content files.new p ≡ F.content files.old p }
{
    let path = &paths[0];
    match files.read(alloc, path) {
        Ok(content) => *text = content,
        Err(FileError::Failed) => return Err(Stopped::Unread(0)),
        Err(FileError::Memory) => return Err(Stopped::Memory),
    }
    let module = match module_of(alloc, path, text.bytes()) {
        Ok(module) => module,
        Err(Stop::Fault(refusal)) => return Ok(Done::RefusedText(refusal)),
        Err(Stop::Memory) => return Err(Stopped::Memory),
    };
    let ran = run_module(alloc, &module, args, fill, units, input, out)?;
    Ok(Done::Ended(ran))
}

/// The module whose text this is; or else the fault of the text, with its line.
fn module_of(alloc: Global, path: &Text, text: &[u8]) -> Result<Module, Stop<TextRefusal>>
    ensures ok { IfOk result (IsPrinted text.now) }
    ensures err { IfErr result (IsTextStop path.now text.now) }
{
    match printed_module(alloc, text) {
        Ok(module) => Ok(module),
        Err(Stop::Fault(fault)) => {
            let line = fault_text(alloc, path, LETTER, fault.number, fault.line, fault.column)?;
            Err(Stop::Fault(TextRefusal { fault, line }))
        }
        Err(Stop::Memory) => Err(Stop::Memory),
    }
}

/// The module whose text this is; or else the fault of the text.
fn printed_module(alloc: Global, text: &[u8]) -> Result<Module, Stop<IlFault>>
    ensures ok { IfOk result (IsPrinted text.now) }
    ensures err { IfErr result (IsPrintStop text.now) }
{
    if text.len() > MOST_OF_TEXT {
        return Err(Stop::Fault(at_start(1)));
    }
    // A valid module can be read back, so a text from which none is read is that of none.
    law_recoverable();
    let Some(module) = read_printed(alloc, text)? else {
        return Err(Stop::Fault(at_start(13)));
    };
    if valid(&module) {
        Ok(module)
    } else {
        Err(Stop::Fault(at_start(13)))
    }
}

/// A fault at the start of the text.
fn at_start(number: u8) -> IlFault
    ensures { result ≡ at_start number }
{
    IlFault {
        number,
        line: 1,
        column: 1,
    }
}
