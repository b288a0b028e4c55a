//! What a value is before it has found its type, and what becomes of it at its site.

use crate::id::TypeId;

/// The type of an expression. Three kinds of value have none until their site gives one.
#[derive(Clone, Copy, Debug, PartialEq, Eq)]
pub enum Ty {
    /// A type of the store.
    Of(TypeId),
    /// A whole number without a suffix.
    Iconst(i128),
    /// `null`.
    Null,
    /// An array of no items.
    Empty,
}

/// How a value is turned into one of another type: by which row of the table of assignability, counted from 1, and into which type.
#[derive(Clone, Copy, Debug, PartialEq, Eq)]
pub struct Coercion {
    pub row: u8,
    pub to: Ty,
}
