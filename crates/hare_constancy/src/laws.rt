//! What holds of every tree that meets its rows, and that well-typed trees do.

ghost use Rattle.hare_constancy.specs.Coherent.{AskedTreesAreCoherent};
ghost use Rattle.hare_constancy.specs.Kept.{DefsStayInAgreement};
ghost use Rattle.hare_constancy.specs.Laws.{MetTreesAreSettled};
ghost use Rattle.hare_constancy.specs.Ready.{AskedValuesAreReady, DeclaredValuesAreReady, WellValuesAreReady};
ghost use Rattle.hare_constancy.specs.Texts.{WellTreesAreTraced, AskedTreesAreTraced, TracedTextsAreTold};
ghost use Rattle.hare_constancy.specs.Well.{WellTreesAreMet, AskedTreesAreMet};

/// The constant of a tree can be told of which each node meets its rows and each type is known and small enough, where its numbers and
/// runes are below 2^127, the texts that it compares are told, and the names of types in the store are those of declared types.
pub fn law_met_trees_are_settled()
    ensures { MetTreesAreSettled }
{}

/// Each node of a well-typed tree meets its rows in some context whose kids are its kids; and so does each node of the value of a
/// declaration, or of a case, when its constant is asked for, before what stands round it is done.
pub fn law_well_trees_are_met()
    ensures well { WellTreesAreMet }
    ensures asked { AskedTreesAreMet }
{}

/// The texts are told that a well-typed tree compares, where the constants of the defs of texts are known and its strings have fewer than
/// 2^32 bytes. An operand that is a text, and constant, is a string or the name of a def, in parentheses or not, cast to a text or not.
pub fn law_texts_are_told()
    ensures well { WellTreesAreTraced }
    ensures asked { AskedTreesAreTraced }
    ensures told { TracedTextsAreTold }
{}

/// The objects of the strings and of the constants in a value have the same cells where they have the same number, when its constant is
/// asked for: where those agree that the constants of defs list, and the values of cases in it list no others.
pub fn law_objects_agree()
    ensures { AskedTreesAreCoherent }
{}

/// What `is_settled` and `is_coherent` of hare_const test holds of a well-typed value of a declaration: when its constant is asked for, which
/// is what a def or a global carries, and when it is finished and has none. So its constant can be told, but for memory. Its types are
/// known and small, and so are its strings; what is known of defs, and what the values of cases in it carry, is such as values come to.
pub fn law_values_are_ready()
    ensures asked { AskedValuesAreReady }
    ensures declared { DeclaredValuesAreReady }
    ensures finished { WellValuesAreReady }
{}

/// What is known of defs agrees as before, for the value of each other declaration, when a constant more is known: one that lists objects of
/// nodes of its own declaration, and objects that are listed with what is known.
pub fn law_defs_stay()
    ensures { DefsStayInAgreement }
{}
