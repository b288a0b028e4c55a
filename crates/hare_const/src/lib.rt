//! Constants: what a tree has as its constant, whether constants cover a type, and which may be the length of an array.
#![tactic(auto)]

mod addresses;
mod array;
mod calculated;
mod casts;
mod coercions;
mod coherent;
mod constancy;
mod cover;
mod folded;
mod joined;
mod kids;
mod laws;
mod length;
mod literals;
mod measures;
mod node;
mod number;
mod operands;
mod operators;
mod outcome;
mod parts;
mod payloads;
mod placing;
mod reached;
mod refused;
mod settled;
mod shape;
mod sizes;
mod statics;
mod table;
mod taken;
mod texts;
mod unions;
mod walk;
mod words;

pub use coherent::is_coherent;
pub use cover::{Limits, covers, limits_at};
pub use folded::{const_eval, constant, constant_cells};
pub use laws::law_constants_stay;
pub use length::array_length;
pub use number::{little_endian, number_cells, number_of, number_of_value};
pub use operators::{
    Arithmetic, IntType, Logic, Order, Shift, combined, complemented, computed, in_order,
    leaves_open, negated, same_number, shifted,
};
pub use settled::is_settled;
