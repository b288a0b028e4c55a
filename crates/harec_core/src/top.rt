//! The top call: from words and files to an answer.

ghost use Rattle.std.specs.Prelude.{◌≡◌, ℕ, ◌<◌, ◌-◌, ◌^◌, ◌↔◌, ◌⊎◌, List, []};
ghost use Rattle.hx_io.specs.Causes.{StopsAtFault};
ghost use Rattle.harec_words.specs.Commands.{AreFiles, Command, IsCommand, IsNoCommand};
ghost use Rattle.harec_check.specs.Files.{AreTold};
ghost use Rattle.harec_core.specs.declared.answer.Answer.{Answer};
ghost use Rattle.harec_core.specs.declared.answer.Answer.TheVariants as answer;
ghost use Rattle.harec_core.specs.Answers.{Answers, LeavesInput, LeavesOutput};
ghost use Rattle.harec_core.specs.Asked.{files_of, units_of};
ghost use Rattle.harec_core.specs.Log.{Logs, LeavesLog, usage_line};
ghost use Rattle.harec_core.specs.Outside.{received, sent};
ghost use Rattle.harec_core.specs.Stages.{AreFilesFor, ArgumentsFor, ArgumentsOf, IsFound, command_for, command_of, command_on, found_answer};

use crate::answer::Answer;
use crate::asked::{Action, Purpose, Task, asked};
use crate::carry::carry_out;
use crate::done::Done;
use crate::execute::execute;
use crate::layout::lay_out;
use crate::log::{report, tell};
use harec_check::{Stopped, check};
use hx_base::{Bytes, Text};
use hx_io::{Files, Sink, Source};
use il_code::law_text;
use std::alloc::Global;

/// Does all that the program does: answers the words, over the files, the input, the output and the log that are handed in.
///
/// All files are read in their order before anything else, and no file is read behind one that failed. `fmt FILE` then writes the layout of
/// the file to the output, and nothing else: where the file has more than 1,048,576 bytes (E1) or a fault of tokens or syntax (E3 to E10),
/// that is the answer, and no name and no type is looked at. With `check`, `emit` and `run` the program of the files is checked: where it has a
/// fault, that is the answer. `check FILES` does no more. `emit FILES` writes the IL text of the program to the output. `run [--units N]
/// FILES [-- ARGS]` makes such a text, reads the module back from it and runs that, with the arguments and with N units, of which the last
/// step may take more than are left: the run reads the input and writes the output as it goes. Programs of several files, and of a file
/// that is not of the class of today, are not compiled yet: E49 at the start of the first file.
///
/// `exec [--units N] IL [-- ARGS]` runs the IL text of a file in the same way, and does nothing else. A file with more than 67,108,864 bytes
/// is refused, I1, and so is any but the printed text of a valid module, I13, both at line 1, column 1.
///
/// Each answer but an accepted program or file and a program's own exit has one line, which the log gets; that of an abort is its text. In
/// a run want of memory is answered only before an instruction that may want it, and else only before the first byte of output.
///
/// As the call begins, `text` is empty, and no object's count of faults stands at 2^64 - 1, where it could rise no more.
///
/// `fill` is the byte that new memory and unassigned temporaries of a run hold. `text` becomes the IL text that was made: it is empty where
/// no module was made, and after want of memory it is the text or empty. Of `exec` it becomes the content of the file, where that was read.
#[tactic(auto, using(crate::proofs::CausesOfAnswers::Causes::files_asked, crate::proofs::CausesOfAnswers::Causes::arguments_asked))]
pub fn harec<F: Files, I: Source, O: Sink, L: Sink>(
    alloc: Global,
    words: &[Text],
    files: &mut F,
    input: &mut I,
    out: &mut O,
    log: &mut L,
    fill: u8,
    text: &mut Bytes,
) -> Answer
    requires empty { text.old ≡ [] }
    requires count_of_files { F.faults files.old < 2 ^ 64 - 1 }
    requires count_of_input { I.faults input.old < 2 ^ 64 - 1 }
    requires count_of_out { O.faults out.old < 2 ^ 64 - 1 }
    requires count_of_log { L.faults log.old < 2 ^ 64 - 1 }

    // A write fault comes exactly where the output or the log failed.
    ensures write_fault { (result ≡ answer.WriteFault)
        ↔ ((O.faults out.old < O.faults out.new) ⊎ (L.faults log.old < L.faults log.new)) }

    // A file fault comes exactly where reading a file failed, and the log did not.
    ensures file_fault { (result ≡ answer.FileFault)
        ↔ ((F.faults files.old < F.faults files.new) × (L.faults log.new ≡ L.faults log.old)) }

    // Where a read of a file failed, just one did, and it was the last: no file is read behind one that failed.
    ensures last { StopsAtFault (F.faults files.old) (F.faults files.new) (F.last_failed files.new) }

    // A read fault comes exactly where the input failed, and the log did not.
    ensures read_fault { (result ≡ answer.ReadFault)
        ↔ ((I.faults input.old < I.faults input.new) × (L.faults log.new ≡ L.faults log.old)) }

    // Usage comes exactly where the words are no command, and the log did not fail. Then nothing but the log is touched.
    ensures usage { (result ≡ answer.Usage)
        ↔ (IsNoCommand words.now × (L.faults log.new ≡ L.faults log.old)) }
    ensures no_command { IsNoCommand words.now
        → (files.new ≡ files.old) × (input.new ≡ input.old) × (out.new ≡ out.old) × (text.new ≡ [])
        × Logs usage_line
        (sent (L.faults log.old) (L.faults log.new) (L.written log.old) (L.written log.new))
        answer.Usage result }

    // The answer to a command is found by a list of bytes for each of its files: those that the file tells, where it tells any. Then its
    // line goes to the log.
    ensures command { (c : Command) → IsCommand words.now c
        → (srcs : List (List ℕ)) × AreTold (F.content files.old) (files_of c) srcs
        × (found : Answer) × (line : List ℕ)
        × Answers (record {
          command = c;
          sources = srcs;
          fill = fill;
          text = text.new;
          files = record { before = F.faults files.old; now = F.faults files.new };
          input = received (I.faults input.old) (I.faults input.new) (I.left input.old) (I.left input.new);
          out = sent (O.faults out.old) (O.faults out.new) (O.written out.old) (O.written out.new);
        }) found line
        × LeavesInput c found input.old input.new
        × LeavesOutput c found out.old out.new
        × LeavesLog found log.old log.new
        × Logs line
        (sent (L.faults log.old) (L.faults log.new) (L.written log.old) (L.written log.new))
        found result }

    // What the paths of files hold stays as it is.
    ensures same { (p : List ℕ) → F.content files.new p ≡ F.content files.old p }
{
    let Some(task) = asked(words) else {
        return report(log, b"harec: usage\n", Answer::Usage);
    };
    let found = answer_to(alloc, task, files, input, out, fill, text);
    // Texts spell one module at most, and so the contract may speak of the one that `text` spells.
    law_text();
    tell(log, task.files, units_of(task.action), found)
}

// The units of a run; 0 where nothing is run.
fn units_of(action: Action) -> u64
    ensures { (files : List (List ℕ)) → result ≡ units_of (command_for files action.entry) }
{
    match action {
        Action::Layout | Action::Program(Purpose::Check | Purpose::Emit) => 0,
        Action::Text { units, .. } | Action::Program(Purpose::Run { units, .. }) => units,
    }
}

// What is found for a command, before the log gets its line.
fn answer_to<F: Files, I: Source, O: Sink>(
    alloc: Global,
    task: Task<'_>,
    files: &mut F,
    input: &mut I,
    out: &mut O,
    fill: u8,
    text: &mut Bytes,
) -> Result<Done, Stopped>
    requires empty { text.old ≡ [] }
    requires files { AreFilesFor task.files.now task.action }
    requires few { ArgumentsFor task.action }
    requires count_of_files { F.faults files.old < 2 ^ 64 - 1 }
    requires count_of_out { O.faults out.old < 2 ^ 64 - 1 }
    ensures cause { (srcs : List (List ℕ)) × AreTold (F.content files.old) task.entry.files.now srcs
        × IsFound (record {
          command = command_of task.entry;
          sources = srcs;
          fill = fill;
          text = text.new;
          files = record { before = F.faults files.old; now = F.faults files.new };
          input = received (I.faults input.old) (I.faults input.new) (I.left input.old) (I.left input.new);
          out = sent (O.faults out.old) (O.faults out.new) (O.written out.old) (O.written out.new);
        }) task.entry.files.now result }
    ensures unread { LeavesInput (command_of task.entry) (found_answer result) input.old input.new }
    ensures leaves { LeavesOutput (command_of task.entry) (found_answer result) out.old out.new }
    ensures last { StopsAtFault (F.faults files.old) (F.faults files.new) (F.last_failed files.new) }
    ensures same { (p : List ℕ) → F.content files.new p ≡ F.content files.old p }
{
    match task.action {
        Action::Layout => lay_out(alloc, task.files, files, out),
        Action::Text { units, args } => {
            execute(
                alloc, task.files, units, args, files, input, out, fill, text,
            )
        }
        Action::Program(purpose) => {
            checked(alloc, task.files, purpose, files, input, out, fill, text)
        }
    }
}

// The same for a command on a program, which is checked first.
fn checked<F: Files, I: Source, O: Sink>(
    alloc: Global,
    paths: &[Text],
    purpose: Purpose<'_>,
    files: &mut F,
    input: &mut I,
    out: &mut O,
    fill: u8,
    text: &mut Bytes,
) -> Result<Done, Stopped>
    requires empty { text.old ≡ [] }
    requires files { AreFiles paths.now }
    requires few { ArgumentsOf purpose }
    requires count_of_files { F.faults files.old < 2 ^ 64 - 1 }
    requires count_of_out { O.faults out.old < 2 ^ 64 - 1 }
    ensures cause { (srcs : List (List ℕ)) × AreTold (F.content files.old) paths.now srcs
        × IsFound (record {
          command = command_on paths.now purpose.entry;
          sources = srcs;
          fill = fill;
          text = text.new;
          files = record { before = F.faults files.old; now = F.faults files.new };
          input = received (I.faults input.old) (I.faults input.new) (I.left input.old) (I.left input.new);
          out = sent (O.faults out.old) (O.faults out.new) (O.written out.old) (O.written out.new);
        }) paths.now result }
    ensures unread { LeavesInput (command_on paths.now purpose.entry) (found_answer result) input.old input.new }
    ensures leaves { LeavesOutput (command_on paths.now purpose.entry) (found_answer result) out.old out.new }
    ensures last { StopsAtFault (F.faults files.old) (F.faults files.new) (F.last_failed files.new) }
    ensures same { (p : List ℕ) → F.content files.new p ≡ F.content files.old p }
{
    let srcs = check(alloc, paths, files)?;
    carry_out(alloc, paths, purpose, &srcs, input, out, fill, text)
}
