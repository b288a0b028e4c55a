//! The plan by which the declarations of a program are judged.

use crate::listed::DeclPlace;
use crate::step::Step;

/// How the declarations of a program are judged.
#[derive(Drop)]
pub struct Plan {
    /// The steps, in their order.
    pub steps: Vec<Step>,
    /// Where each declaration stands, by its number.
    pub places: Vec<DeclPlace>,
}
