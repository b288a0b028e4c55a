//! What holds of stores of whose definitions only some are seen.

ghost use Rattle.hare_seen.specs.Laws.{BytesFollowDefinitions, SeenStoresAreStores};

use hare_types::{law_ids_mean_trees, law_types_stay};

/// In a later store that defines no other names, no more is known of the bytes of types.
pub fn law_bytes_follow_definitions()
    ensures { BytesFollowDefinitions }
{
    law_ids_mean_trees();
    law_types_stay();
}

/// Where only some of its definitions are seen, a store is one still; and it comes behind each earlier store that knows no others.
pub fn law_seen_stores_are_stores()
    ensures { SeenStoresAreStores }
{}
