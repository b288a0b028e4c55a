//! What every judge of a node does, whatever its kind: it asks the rows of the table in their order, finds the node's type, asks the two
//! rows that all kinds share, and settles coercions.
//!
//! A crate of judges says by `Rules` what its own kinds ask; `judge_by` does the rest. Each answer is that of every store that may come
//! later.
#![tactic(auto)]

mod bases;
mod decls;
mod defaults;
mod errors;
mod given;
mod hints;
mod integers;
mod judged;
mod kids;
mod last;
mod made;
mod members;
mod places;
mod rules;
mod scalars;
mod sites;
mod told;
mod turn;
mod unions;
mod walk;
mod yields;

pub use bases::{base_row, is_never, row_in};
pub use decls::DeclTypes;
pub use defaults::{default_in, has_default};
pub use errors::{has_error_member, has_size, holds_error, is_error};
pub use given::{own, seen};
pub use hints::asked;
pub use integers::{integer_word, is_integer};
pub use judged::judge_by;
pub use made::{array_of, pointer_to, slice_of, tuple_of, word};
pub use members::{is_member, members_in, without_errors};
pub use places::{is_mutable, is_place};
pub use rules::Rules;
pub use scalars::is_scalar;
pub use sites::{coerced, own_coercion, to_type, void_fits};
pub use told::{is_there, kids_before, kind_at, place_at, seen_at, type_at};
pub use turn::Turn;
pub use unions::refusable;
pub use yields::{is_open, is_type_hint, joined_yields};
