//! What holds of circles and orders of declarations.

ghost use Rattle.hare_depends.specs.Circles.{CircleFaultsAreOne};
ghost use Rattle.hare_depends.specs.Order.{OrdersAreOne, OrdersHaveNoCircles};

/// Circles of declarations have at most one fault. Declarations have at most one order in which they are judged, and none where one depends
/// on itself.
pub fn law_one_order()
    ensures fault { CircleFaultsAreOne }
    ensures order { OrdersAreOne }
    ensures circles { OrdersHaveNoCircles }
{}
