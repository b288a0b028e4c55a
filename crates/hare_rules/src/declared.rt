//! What is known of names when a node is judged.

use hare_tree::Kind;
use hare_typed::Const;
use hare_types::{TypeId, TypeIds};
use hx_base::Items;

/// A binding of a function: a parameter, a `let` or `const`, the element of a loop, or the value of a case.
#[derive(Clone, Copy, Debug, PartialEq, Eq)]
pub struct Local {
    /// The type of its value.
    pub ty: TypeId,
    /// Whether it may be assigned to: all but those of a `const` may.
    pub mutable: bool,
}

/// The bindings of a declaration, by their numbers.
pub type Locals = Items<Local>;

/// What is known of a declaration.
#[derive(Drop)]
pub struct DeclType {
    /// Its number.
    pub decl: u32,
    /// Its kind: Def, GlobalLet, GlobalConst, TypeDecl or Fn.
    pub kind: Kind,
    /// The type of its value, of a function that of its result, and of a type the type itself.
    pub ty: TypeId,
    /// The types of a function's parameters; else none.
    pub params: TypeIds,
    /// Whether it may be assigned to.
    pub mutable: bool,
    /// The value of a Def; else Absent.
    pub value: Const,
}
