//! The machine of the intermediate language, as a program.
//!
//! `il_code` defines what a run of a module does (`specs/Step.antt`, `specs/Run.antt`). A [`Machine`] does it, for every valid module: it
//! decodes the module and loads its data once, and then runs it by turns of the loop of `il_engine` and of the functions of the runtime in
//! `il_acts`. What its answers mean stands in `specs/Ends.antt`, how it and the outside stand behind a run in `specs/Runs.antt`, before
//! which instructions it may want memory in `specs/Wants.antt`, and when it stands at a run of its module in `specs/Stands.antt`.
#![tactic(auto)]

mod end;
mod go;
mod live;
mod machine;
mod progress;
mod stop;

pub use end::End;
pub use il_code::MachineFault;
pub use machine::Machine;
