//! What is noted of the paths of a program.

use crate::rising::Rising;
use hare_tree::Fault;

/// The meanings of paths, and the violation that counts first of those that were found.
#[derive(Drop)]
pub struct Notes {
    pub places: Rising,
    pub first: Option<Fault>,
}
