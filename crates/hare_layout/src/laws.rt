//! What holds of every store.

ghost use Rattle.hare_layout.specs.Growth.{LayoutStays, JudgementsStay};
ghost use Rattle.hare_layout.specs.Offsets.{OffsetsMeanTrees};
ghost use Rattle.hare_layout.specs.Unions.{UnionsMeanTrees};
ghost use Rattle.hare_layout.specs.Whole.{TypesAreAligned, FieldsLieWithin, PayloadsLieWithin, SmallTypes};

/// Where bytes lie, which fields there are, and which unions hold which, stays in later stores.
#[tactic(auto, using(crate::proofs::GrowthLemmas::layout_stays))]
pub fn law_layout_stays()
    ensures { LayoutStays }
{}

/// What a spelled type is reduced to, and what is wrong with it, over a store, is so over each later store. It rests on the bases of the
/// members that are spread, on whether what has to have a size has one, and on the definitions of the names that it holds by value: where
/// one of these is not known yet, the judgement may change.
pub fn law_judgements_stay()
    ensures { JudgementsStay }
{}

/// An alignment is 1, 2, 4 or 8, and the size of a type is a multiple of its alignment.
#[tactic(auto, using(crate::proofs::AlignLemmas::types_are_aligned))]
pub fn law_types_are_aligned()
    ensures { TypesAreAligned }
{}

/// The fields of a struct, and the components of a tuple, lie within the whole, each at a multiple of its alignment, in order and without
/// overlap.
#[tactic(auto, using(crate::proofs::PlacesLemmas::fields_lie_in))]
pub fn law_fields_lie_within()
    ensures { FieldsLieWithin }
{}

/// The payload of a union lies behind its tag and within the union, with room for each member, and is aligned for each.
#[tactic(auto, using(crate::proofs::PlacesLemmas::payload_lies_in))]
pub fn law_payloads_lie_within()
    ensures { PayloadsLieWithin }
{}

/// A type of at most 67,108,864 bytes is small enough for `size_of`, `align_of`, `offset_of` and `payload_of`. So are then its parts, but
/// for the items of an array that has none: the types that it holds by value, what bears its error mark, what its name is defined to be.
pub fn law_small_types()
    ensures { SmallTypes }
{}

/// Where a field or a payload begins by the id of its type is where it begins in the tree for which the id stands.
#[tactic(auto, using(crate::proofs::MeansLemmas::offsets_mean))]
pub fn law_offsets_mean_trees()
    ensures { OffsetsMeanTrees }
{}

/// Types that are put together into a union by their ids are what the union is reduced to that is spelled with them as its members: the same
/// types are left, and the id that they are reduced to stands for its type.
pub fn law_unions_mean_trees()
    ensures { UnionsMeanTrees }
{}
