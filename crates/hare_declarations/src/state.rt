//! What stands while declarations are judged.

use crate::parts::Parts;
use hare_defined::Defined;
use hare_waits::Waits;
use rule_judge::DeclTypes;

/// What is known while declarations are judged, and what has been judged of each.
#[derive(Drop)]
pub(crate) struct State {
    /// What is known of declarations.
    pub known: DeclTypes,
    /// That part of it of which all types are defined.
    pub ready: DeclTypes,
    /// Types that are known to mention no name that is not defined.
    pub defined: Defined,
    /// Written types that may turn out to be too large.
    pub waits: Waits,
    /// What has been judged of each declaration, by its number: none before its written types have been.
    pub slots: Vec<Option<Parts>>,
}
