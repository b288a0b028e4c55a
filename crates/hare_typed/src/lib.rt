//! Typed trees: what a checked program is, what it costs, and what its values are.
#![tactic(auto)]

mod cell;
mod cells;
mod constant;
mod copied;
mod erased;
mod exits;
mod given;
mod laws;
mod leads;
mod program;
mod shared;
mod typed;
mod value_laws;
mod weights;

pub use cell::Cell;
pub use cells::Cells;
pub use constant::{Const, ConstObject, ConstObjects, Consts};
pub use copied::copies;
pub use erased::erase;
pub use laws::{law_costs_are_of_marks, law_orders_agree, law_weights_stay};
pub use leads::led_to;
pub use program::{Paths, Program};
pub use shared::SharedCells;
pub use typed::{Typed, TypedKids, coat};
pub use value_laws::{
    law_cells_spell, law_constants_are_quiet, law_constants_look_at_statics,
    law_looks_where_pointed,
};
pub use weights::weight;
