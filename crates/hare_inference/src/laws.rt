//! What holds of well-typed trees and of first faults, whoever looks for them.

ghost use Rattle.hare_inference.specs.Hands.{JudgedTreesStay};
ghost use Rattle.hare_inference.specs.Turns.{TurnsSettle};
ghost use Rattle.hare_inference.specs.Laws.{CoercionsAreSettled, InferenceIsExact, NumbersAreOrder, OneFault, OneTree, TreeOrFault};

/// Over any store, and whatever stands over it, an untyped tree is that of at most one well-typed tree.
#[tactic(auto, using(crate::proofs::Decided::one_tree))]
pub fn law_one_tree()
    ensures { OneTree }
{}

/// At most one row at one node of a tree is the first that fails, so that the number and the place of a first fault are determined.
pub fn law_one_fault()
    ensures { OneFault }
{}

/// A shaped tree is that of the one well-typed tree, or has the one first fault, or the store lacks a type of it; and no two of these.
#[tactic(auto, using(crate::proofs::Decided::decided))]
pub fn law_tree_or_fault()
    ensures { TreeOrFault }
{}

/// Inference from kids to parent finds just the well-typed tree, just the first fault, and just the type that the store lacks.
#[tactic(auto, using(crate::proofs::Decided::exact))]
pub fn law_inference_is_exact()
    ensures { InferenceIsExact }
{}

/// The number of a node is how many nodes stand before it in check order, and labels have the numbers of their nodes.
#[tactic(auto, using(crate::proofs::Numbered::numbers))]
pub fn law_numbers_are_order()
    ensures { NumbersAreOrder }
{}

/// Each node has one coercion: what is settled late of it, where something is.
#[tactic(auto, using(crate::proofs::Numbered::settled))]
pub fn law_coercions_are_settled()
    ensures { CoercionsAreSettled }
{}

/// While a tree is judged, nothing is settled of trees that have been judged before.
#[tactic(auto, using(crate::proofs::Hands::trees_stay))]
pub fn law_judged_trees_stay()
    ensures { JudgedTreesStay }
{}

/// Behind a node's turn the tree in hand is the node with its own coercion, over the kids with those that it settles of them.
#[tactic(auto, using(crate::proofs::Turns::turns_settle))]
pub fn law_turns_settle()
    ensures { TurnsSettle }
{}
