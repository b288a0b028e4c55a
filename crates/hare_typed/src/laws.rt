//! What holds of the order and of the costs of every typed tree.

ghost use Rattle.hare_typed.specs.CostLaws.{AllOrdersAgree, WeightsStay, CostsAreOfMarks};

/// Check order is that of the untyped tree; copies are counted of just the numbered nodes, in their order; and in a declaration of a
/// checked program the number of a node is how many numbered nodes stand before it.
pub fn law_orders_agree()
    ensures { AllOrdersAgree }
{}

/// A later store changes no weight: of a node whose types the store has, where no type of it comes to a name that is not defined.
#[tactic(auto, using(crate::proofs::LaterWeights::weights_stay))]
pub fn law_weights_stay()
    ensures { WeightsStay }
{}

/// The weight and the size of a node are those of its own type and coercion and of what its kids give, and copies are those of the untyped
/// tree: a mark that is changed elsewhere changes none.
#[tactic(auto, using(crate::proofs::LocalCosts::costs_are_of_marks))]
pub fn law_costs_are_of_marks()
    ensures { CostsAreOfMarks }
{}
