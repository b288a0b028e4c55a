//! What is known of a program.

use hare_names::Names;
use rule_judge::DeclTypes;
use std::alloc::Global;

/// What is known of a program while a written type is judged.
#[derive(Clone, Copy)]
pub(crate) struct Env<'a> {
    pub(crate) alloc: Global,
    /// What its paths mean.
    pub(crate) names: &'a Names,
    /// What is known of its declarations.
    pub(crate) decls: &'a DeclTypes,
}
