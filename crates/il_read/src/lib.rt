//! Reading the printed text of a module back.
//!
//! [`read_printed`] takes the texts that [`il_code::print`] writes and no others. Every recoverable module comes back as it was
//! (`specs/Recoverable.antt`), and every valid module is recoverable ([`law_recoverable`]).
#![tactic(auto)]

mod block;
mod data;
mod front;
mod function;
mod items;
mod jump;
mod law;
mod line;
mod list;
mod op;
mod printed;
mod taken;
mod value;

pub use law::law_recoverable;
pub use printed::read_printed;
