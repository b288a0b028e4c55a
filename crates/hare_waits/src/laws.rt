//! What holds of nodes that wait.

ghost use Rattle.hare_waits.specs.Laws.{WaitsStay};

/// Where no other name is defined, the same nodes wait in each later store: types may be taken in meanwhile.
pub fn law_waits_stay()
    ensures { WaitsStay }
{}
