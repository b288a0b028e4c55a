//! Graphs whose nodes have numbers: what can be reached from a node, and ranks by which most edges are seen to lie on no circle.
#![tactic(auto)]

mod graph;
mod labels;
mod ranking;
mod reach;

pub use graph::Graph;
pub use labels::{clear, flood, label_of, no_labels, spread};
pub use ranking::ranks;
pub use reach::{leads_to, leads_up};
