//! What holds of types that are known to be defined.

ghost use Rattle.hare_defined.specs.Known.{DefinedTypesStay};

/// Types that are known to mention no name that is not defined are known to do so in every later store.
pub fn law_defined_types_stay()
    ensures { DefinedTypesStay }
{}
