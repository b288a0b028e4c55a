//! What the operations of the intermediate language that touch no memory give.
//!
//! Every machine of the language computes with these: [`apply`] takes any operation, at any class and on any operands, as `il_code` defines
//! it (`specs/Operations.antt` there).
#![tactic(auto)]

mod operations;

pub use hx_base::Class;
pub use il_code::{IlOp, MachineFault};
pub use operations::{apply, cut};
