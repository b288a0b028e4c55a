//! The answers of the top call, and the statuses with which the program ends.

ghost use Rattle.std.specs.Prelude.{◌≡◌};
ghost use Rattle.harec_core.specs.Status.{status};

use hare_tree::Fault;
use il_code::MachineFault;

/// An act that the program's meaning leaves undefined.
#[derive(Clone, Copy, Debug, PartialEq, Eq)]
pub enum Undef {
    /// The machine of the intermediate language met this fault.
    Il(MachineFault),
    /// The evaluator of the source met the undefined act of this number.
    Hare(u8),
}

/// A fault of a text of the intermediate language: the `I` number of its sort, and where it stands.
#[derive(Clone, Copy, Debug, PartialEq, Eq)]
pub struct IlFault {
    /// The number of the sort of fault, as 13 for I13.
    pub number: u8,
    /// The line, from 1.
    pub line: u64,
    /// 1 and the number of bytes since the last line feed.
    pub column: u64,
}

/// What the top call answers.
#[derive(Clone, Copy, Debug, PartialEq, Eq)]
pub enum Answer {
    /// The command is done: the program is checked, and its text is written out where that was asked; or the layout of the file is written
    /// out.
    Accepted,
    /// The program ended with this status.
    Exited(u8),
    /// The words are no command.
    Usage,
    /// The program, or the file that is to be laid out, has this fault. E49 says that the program is not compiled yet.
    Refused(Fault),
    /// The text of the intermediate language that is to be run has this fault.
    RefusedText(IlFault),
    /// A file was not read.
    FileFault,
    /// The program did what has no meaning.
    Undefined(Undef),
    /// The host gave no memory.
    Memory,
    /// The input was not read.
    ReadFault,
    /// The output, or the log, was not written.
    WriteFault,
    /// The program used all its units.
    Spent,
    /// The program used all its stack.
    StackFull,
    /// The program gave up.
    Aborted,
}

/// The status with which the program ends: that of the program that was run, or a number that is kept for the answer. Those from 64 to
/// 78 are the ones that BSD's `sysexits.h` names, and 134 is what a shell shows for an abort.
pub fn status(a: &Answer) -> u8
    ensures { result ≡ status a.now }
{
    match a {
        Answer::Accepted => 0,
        Answer::Exited(k) => *k,
        Answer::Usage => 64,
        Answer::Refused(_) | Answer::RefusedText(_) => 65,
        Answer::FileFault => 66,
        Answer::Undefined(_) => 70,
        Answer::Memory => 71,
        Answer::ReadFault => 74,
        Answer::WriteFault => 74,
        Answer::Spent => 75,
        Answer::StackFull => 76,
        Answer::Aborted => 134,
    }
}
