//! The functions of the runtime, as all code names them that calls them: their symbols, and the classes of their parameters and results.
//!
//! They stand in one table (`specs/Functions.antt`); what each does to memory, the heap, input and output is defined in hx_base
//! (`specs/Runtime.antt`). Flat code and the intermediate language both take them from here.
#![tactic(auto)]

mod runtime;

pub use hx_base::Class;
pub use runtime::{RuntimeFunction, is_reserved};
