//! The compiler's top call.
#![tactic(auto)]

mod answer;
mod asked;
mod carry;
mod compile;
mod done;
mod execute;
mod layout;
mod log;
mod piece;
mod run;
#[cfg(test)]
mod tests;
mod top;

pub use answer::{Answer, IlFault, Undef, status};
pub use hare_tree::{Fault, Place};
pub use il_code::MachineFault;
pub use top::harec;
