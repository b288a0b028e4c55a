//! Flat code: structured code over temporaries, frames and flat memory, from which the blocks of the
//! intermediate language are made.
//!
//! [`well_formed`] tells which programs such code can be made of (`specs/WellFormed.antt`). What a program
//! does within a number of turns is defined in `specs/Evaluation.antt`, and what a call of a function costs
//! the stack in `specs/Costs.antt`.
#![tactic(auto)]

mod flat;
mod kinds;
mod op;
mod program;
mod rules;
mod value;

pub use flat::{Flat, FlatBox, FlatKids};
pub use hx_base::{Class, Items};
pub use kinds::OpKind;
pub use op::{LoadKind, Op};
pub use program::{Classes, Data, DataList, FlatFn, FlatFns, FlatProgram, Item};
pub use rules::well_formed;
pub use value::{Value, Values};
