//! What the judging of declarations gives.

use hare_typed::{Typed, TypedKids};
use hx_base::Items;
use rule_judge::DeclTypes;

/// What has been typed of a declaration.
#[derive(Drop)]
pub struct Parts {
    /// Its written types, in the order of the source.
    pub types: TypedKids,
    /// The value of a def or a global; else none.
    pub value: Option<Typed>,
}

/// What stands once all declarations have been judged.
#[derive(Drop)]
pub struct Judged {
    /// What is known of each declaration.
    pub known: DeclTypes,
    /// What has been typed of each, by its number.
    pub parts: Items<Parts>,
}
