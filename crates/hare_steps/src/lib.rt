//! In which steps the declarations of a program are judged.
#![tactic(auto)]

mod early;
mod judged;
mod listed;
mod planned;
mod planning;
mod step;
mod turns;

pub use listed::{DeclPlace, declaration_at, places};
pub use planned::Plan;
pub use planning::plan;
pub use step::Step;
pub use turns::steps;
