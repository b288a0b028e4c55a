//! What came of a command that was carried out.

use crate::answer::IlFault;
use hx_base::Text;
use il_step::{End, Machine};

/// What came of a command that was carried out.
#[derive(Drop)]
pub enum Done {
    /// The program was checked, or what is written out of it or of the file was.
    Accepted,
    /// A module was run.
    Ended(Ran),
    /// The text of the file is not run.
    RefusedText(TextRefusal),
    /// The output failed while this was written.
    Cut,
}

/// A run of a module.
#[derive(Drop)]
pub struct Ran {
    /// What the machine answered.
    pub end: End,
    /// The machine, which keeps the text of an abort.
    pub machine: Machine,
}

/// A fault of a text of the intermediate language, with its line.
#[derive(Drop)]
pub struct TextRefusal {
    pub fault: IlFault,
    /// `PATH:LINE:COLUMN: I13 NotPrinted` and a line feed, with the path that names the file.
    pub line: Text,
}
