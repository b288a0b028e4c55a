//! Small bodies, worked out: `proofs/` computes what the typing rules say of each, its typed tree or its first fault. The one law here says
//! that what is computed is just that.
#![tactic(auto)]

ghost use Rattle.worked_bodies.specs.Finding.{FindingsAreExact};

/// Where a body's finding is a typed tree, this is the one that is well typed; where it is a fault, this is the first.
#[tactic(auto, using(crate::proofs::Exact::findings_are_exact))]
pub fn law_findings_are_exact()
    ensures { FindingsAreExact }
{}
