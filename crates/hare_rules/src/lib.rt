//! The typing rules as a table, and what a well-typed tree is.
#![tactic(auto)]

mod declared;
mod hint;
mod inside;
mod judged;
mod laws;
mod row_id;
mod table;

pub use declared::{DeclType, Local, Locals};
pub use hint::Hint;
pub use inside::{Inside, Label, Labels, Target};
pub use judged::{Case, Coercions, Verdict, Yielded, Yields};
pub use laws::{law_counts_cover, law_switch_is_covered};
pub use row_id::RowId;
pub use table::{number, rows};
