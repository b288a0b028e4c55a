//! A node whose turn has come.

use crate::decls::DeclTypes;
use hare_rules::{Case, Locals};
use hare_tree::Tree;
use hare_typed::TypedKids;

/// What a judge is told of a node.
#[derive(Clone, Copy)]
pub struct Turn<'a> {
    /// What is known of the declarations.
    pub decls: &'a DeclTypes,
    /// The bindings, by their numbers.
    pub locals: &'a Locals,
    /// What is asked of it, what its names say, what was yielded to it, and what stands round it.
    pub case: &'a Case,
    /// Its untyped tree.
    pub node: &'a Tree,
    /// Its kids, which have been judged.
    pub kids: &'a TypedKids,
}
