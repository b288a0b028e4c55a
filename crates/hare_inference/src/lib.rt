//! What the typing rules come to: each body is that of one well-typed tree, or has one first fault.
#![tactic(auto)]

mod laws;

pub use laws::{
    law_coercions_are_settled, law_inference_is_exact, law_judged_trees_stay,
    law_numbers_are_order, law_one_fault, law_one_tree, law_tree_or_fault, law_turns_settle,
};
