//! What holds of the paths and bindings of declarations.

ghost use Rattle.hare_names.specs.Bindings.{LocalsAreInScope, BindingsAscend};

/// Each local that a path means is a binding of its declaration that is in scope there: the one with that number, of the path's name,
/// visible in the path's scopes.
#[tactic(auto, using(crate::proofs::ScopeLemmas::locals_are_in_scope))]
pub fn law_locals_are_in_scope()
    ensures { LocalsAreInScope }
{}

/// In a file that stands over its tokens the bindings of a declaration stand in their order: the number of a binding is how many stand
/// before its place. So the binding that `Meaning::Local` names is told by places alone, in whatever order a reader comes to bindings.
pub fn law_bindings_ascend()
    ensures { BindingsAscend }
{}
