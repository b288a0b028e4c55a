//! What holds of every constant.

ghost use Rattle.hare_const.specs.Settled.{ConstantsStay};

/// A tree whose constant can be told, and whose types come to names that are defined, has in each later store the same value, the same
/// first node that is no constant, and the same cells.
pub fn law_constants_stay()
    ensures { ConstantsStay }
{}
