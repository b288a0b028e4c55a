//! What holds of every store.

ghost use Rattle.hare_types.specs.Later.{TypesStay};
ghost use Rattle.hare_types.specs.Meanings.{IdsMeanTrees, IdsAscend};

/// What is said of a type by its id is what is said of its tree: base, error mark, size and alignment, members and tag; and two ids are
/// equal exactly where they stand for one type, a union being the set of its members.
#[tactic(auto, using(crate::proofs::MeaningsLemmas::ids_mean_trees))]
pub fn law_ids_mean_trees()
    ensures { IdsMeanTrees }
{}

/// Ids that are put into ascending order are the same ids, each once.
pub fn law_ids_ascend()
    ensures { IdsAscend }
{}

/// What is known of a type is known of it in every later store, and the same. The list of types that have tags may be made anew meanwhile.
#[tactic(auto, using(crate::proofs::LaterLemmas::types_stay))]
pub fn law_types_stay()
    ensures { TypesStay }
{}
