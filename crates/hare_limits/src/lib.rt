//! What is looked at when all declarations and bodies of a program have been judged: the function `main`, the frames of functions, and
//! the size of the whole.
#![tactic(auto)]

mod entries;
mod frames;
mod homes;
mod limits;
mod shapes;
mod sums;

pub use entries::entry;
pub use frames::first_large_frame;
pub use limits::first_limit;
pub use sums::first_large_sum;
