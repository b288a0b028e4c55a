//! Whole programs.

use crate::typed::TypedKids;
use hare_types::TypeStore;
use hx_base::{Items, Text};

/// The paths of a program's files, in the order of the command line.
pub type Paths = Items<Text>;

/// A checked program.
#[derive(Drop)]
pub struct Program {
    /// The types of which its trees speak.
    pub types: TypeStore,
    /// Its declarations, in the order of files and source.
    pub decls: TypedKids,
    /// The paths of its files. A place names its file by the number of files before it.
    pub paths: Paths,
    /// How many declarations stand before its function `main`.
    pub entry: u32,
}
