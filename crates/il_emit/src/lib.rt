//! The intermediate language of a program of flat code.
//!
//! [`emit`] makes a module of a well formed program: a data item for each global and a function for each
//! function, whose structured code becomes blocks. The module is valid, does what the program does
//! (`specs/Reaches.antt`), and has its shape (`specs/Shape.antt`). Which blocks they are is up to the code below:
//! `specs/Lines.antt` says it for its own contracts, and no public clause cites that.
#![tactic(auto)]

mod code;
mod data;
mod draft;
mod emitter;
mod goal;
mod module;
mod names;
mod op;
mod operand;
mod source;
mod statement;

pub use module::emit;
pub use op::law_operations_agree;
