//! What holds of trees over settings that say the same of the declarations that the trees name.

ghost use Rattle.hare_agree.specs.Laws.{SettingsAgree, ValuesAreEnough};

/// Settings that say the same of each declaration that a tree names judge it alike: they have the same one well-typed tree, the same
/// first fault, and the same has been seen behind it.
pub fn law_settings_agree()
    ensures { SettingsAgree }
{}

/// It is enough that they say the same of those that paths mean which are no written types: of what written types name, nothing is read.
pub fn law_values_are_enough()
    ensures { ValuesAreEnough }
{}
