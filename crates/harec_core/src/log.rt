//! The one line that the log gets.

ghost use Rattle.std.specs.Prelude.{◌≡◌, ◌<◌, ◌-◌, ◌^◌, ◌++◌, ℕ, List, codes};
ghost use Rattle.std.specs.Fmt.{decimal};
ghost use Rattle.harec_core.specs.declared.answer.Answer.TheVariants as answer;
ghost use Rattle.harec_core.specs.declared.answer.Undef.TheVariants.{Il};
ghost use Rattle.harec_core.specs.Log.{Logs, IsLine, LeavesLog, fault_name, unread_line, undefined_line, spent_line};
ghost use Rattle.harec_core.specs.Outside.{Sent, Writes, sent};
ghost use Rattle.harec_core.specs.Stages.{BringsLine, HasAborted, HasLine, answer_of, done_answer, found_answer};

use crate::answer::{Answer, Undef};
use crate::done::{Done, Ran};
use crate::piece::write;
use harec_check::Stopped;
use hx_base::Text;
use hx_io::{Failed, Sink};
use il_code::MachineFault;
use il_step::End;

/// Writes the line of what was found to the log, if it has one, and answers what was found; or else, where the log fails, that it did.
/// Takes no memory.
///
/// `paths` are the words that name the files, and `units` are those of a run. The text of an abort is the one that the machine keeps.
pub fn tell<L: Sink>(
    log: &mut L,
    paths: &[Text],
    units: u64,
    found: Result<Done, Stopped>,
) -> Answer
    requires count { L.faults log.old < 2 ^ 64 - 1 }
    requires brings { (abort : List ℕ) × HasLine paths.now abort found }
    ensures line { (abort : List ℕ) → HasLine paths.now abort found
        → (line : List ℕ) × IsLine paths.now units abort (found_answer found) line
        × Logs line (sent (L.faults log.old) (L.faults log.new) (L.written log.old) (L.written log.new)) (found_answer found) result }
    ensures leaves { LeavesLog (found_answer found) log.old log.new }
{
    match found {
        Ok(done) => tell_done(log, paths, units, &done),
        Err(Stopped::Refused(refusal)) => {
            report(log, refusal.line.bytes(), Answer::Refused(refusal.fault))
        }
        Err(Stopped::Unread(number)) => report_unread(log, paths[number].bytes()),
        Err(Stopped::Memory) => report(log, b"harec: memory\n", Answer::Memory),
    }
}

// The same of a command that was carried out.
fn tell_done<L: Sink>(log: &mut L, paths: &[Text], units: u64, done: &Done) -> Answer
    requires { L.faults log.old < 2 ^ 64 - 1 }
    ensures line { (abort : List ℕ) → BringsLine paths.now abort done.now
        → (line : List ℕ) × IsLine paths.now units abort (done_answer done.now) line
        × Logs line (sent (L.faults log.old) (L.faults log.new) (L.written log.old) (L.written log.new)) (done_answer done.now) result }
    ensures leaves { LeavesLog (done_answer done.now) log.old log.new }
{
    match done {
        Done::Accepted => Answer::Accepted,
        Done::Ended(ran) => tell_end(log, paths, units, ran),
        Done::RefusedText(refusal) => report(
            log,
            refusal.line.bytes(),
            Answer::RefusedText(refusal.fault),
        ),
        Done::Cut => report(log, b"harec: write fault\n", Answer::WriteFault),
    }
}

// The same of a run.
fn tell_end<L: Sink>(log: &mut L, paths: &[Text], units: u64, ran: &Ran) -> Answer
    requires { L.faults log.old < 2 ^ 64 - 1 }
    ensures line { (abort : List ℕ) → HasAborted abort ran.now.end ran.now.machine
        → (line : List ℕ) × IsLine paths.now units abort (answer_of ran.now.end) line
        × Logs line (sent (L.faults log.old) (L.faults log.new) (L.written log.old) (L.written log.new)) (answer_of ran.now.end) result }
    ensures leaves { LeavesLog (answer_of ran.now.end) log.old log.new }
{
    match ran.end {
        End::Exit(status) => Answer::Exited(status),
        End::Abort => report_abort(log, ran.machine.abort_text()),
        End::Fault(fault) => report_undefined(log, fault),
        End::StackFull => report(log, b"harec: stack full\n", Answer::StackFull),
        End::Spent => report_spent(log, units),
        End::ReadFault => report(log, b"harec: read fault\n", Answer::ReadFault),
        End::WriteFault => report(log, b"harec: write fault\n", Answer::WriteFault),
        End::Memory => report(log, b"harec: memory\n", Answer::Memory),
    }
}

/// Writes a line to the log, and answers this; or else, where the log fails, that it did. Takes no memory.
pub fn report<L: Sink>(log: &mut L, line: &[u8], found: Answer) -> Answer
    requires { L.faults log.old < 2 ^ 64 - 1 }
    ensures { Logs line.now (sent (L.faults log.old) (L.faults log.new) (L.written log.old) (L.written log.new)) found result }
{
    answered(write(log, line), found)
}

// Reports a file that was not read.
fn report_unread<L: Sink>(log: &mut L, path: &[u8]) -> Answer
    requires { L.faults log.old < 2 ^ 64 - 1 }
    ensures { Logs (unread_line path.now)
        (sent (L.faults log.old) (L.faults log.new) (L.written log.old) (L.written log.new)) answer.FileFault result }
{
    answered(write_two(log, path, b": file fault\n"), Answer::FileFault)
}

// Reports a run that did what has no meaning.
fn report_undefined<L: Sink>(log: &mut L, fault: MachineFault) -> Answer
    requires { L.faults log.old < 2 ^ 64 - 1 }
    ensures { Logs (undefined_line (Il fault))
        (sent (L.faults log.old) (L.faults log.new) (L.written log.old) (L.written log.new)) (answer.Undefined (Il fault)) result }
{
    answered(
        write_undefined(log, fault),
        Answer::Undefined(Undef::Il(fault)),
    )
}

// Reports a run that gave up, with this text.
fn report_abort<L: Sink>(log: &mut L, text: &[u8]) -> Answer
    requires { L.faults log.old < 2 ^ 64 - 1 }
    ensures { Logs (text.now ++ codes "\n")
        (sent (L.faults log.old) (L.faults log.new) (L.written log.old) (L.written log.new)) answer.Aborted result }
{
    answered(write_two(log, text, b"\n"), Answer::Aborted)
}

// Reports a run that spent its units.
fn report_spent<L: Sink>(log: &mut L, units: u64) -> Answer
    requires { L.faults log.old < 2 ^ 64 - 1 }
    ensures { Logs (spent_line units)
        (sent (L.faults log.old) (L.faults log.new) (L.written log.old) (L.written log.new)) answer.Spent result }
{
    answered(write_spent(log, units), Answer::Spent)
}

// What is answered where this was found, and its line was written or cut off.
fn answered(written: Result<(), Failed>, found: Answer) -> Answer
    ensures { (line : List ℕ) (log : Sent) → Writes line log written → Logs line log found result }
{
    match written {
        Ok(()) => found,
        Err(Failed) => Answer::WriteFault,
    }
}

// Writes the line of a run that did what has no meaning.
fn write_undefined<L: Sink>(log: &mut L, fault: MachineFault) -> Result<(), Failed>
    requires { L.faults log.old < 2 ^ 64 - 1 }
    ensures { Writes (undefined_line (Il fault))
        (sent (L.faults log.old) (L.faults log.new) (L.written log.old) (L.written log.new))
        result }
{
    write(log, b"harec: undefined ")?;
    write_two(log, fault_name(fault), b"\n")?;
    Ok(())
}

// Writes the line of a run that spent its units.
fn write_spent<L: Sink>(log: &mut L, units: u64) -> Result<(), Failed>
    requires { L.faults log.old < 2 ^ 64 - 1 }
    ensures { Writes (spent_line units)
        (sent (L.faults log.old) (L.faults log.new) (L.written log.old) (L.written log.new))
        result }
{
    let mut buffer = itoa::Buffer::new();
    write(log, b"harec: spent ")?;
    write_two(log, buffer.format(units).as_bytes(), b" units\n")?;
    Ok(())
}

// Writes one piece behind the other.
fn write_two<L: Sink>(log: &mut L, first: &[u8], second: &[u8]) -> Result<(), Failed>
    requires { L.faults log.old < 2 ^ 64 - 1 }
    ensures { Writes (first.now ++ second.now)
        (sent (L.faults log.old) (L.faults log.new) (L.written log.old) (L.written log.new))
        result }
{
    write(log, first)?;
    write(log, second)?;
    Ok(())
}

// The name of a fault of the machine.
fn fault_name(fault: MachineFault) -> &'static [u8]
    ensures { result.now ≡ fault_name fault }
{
    match fault {
        MachineFault::Wild => b"Wild",
        MachineFault::Overlap => b"Overlap",
        MachineFault::BadFree => b"BadFree",
        MachineFault::BadArg => b"BadArg",
        MachineFault::ZeroDivisor => b"ZeroDivisor",
        MachineFault::Hlt => b"Hlt",
    }
}
