//! The declaration that a line asks about.

use hare_tree::Kind;
use hare_typed::{Program, Typed};
use hare_types::{Ty, TypeId};

/// The name of the declaration that each line asks about.
const ASKED: &[u8] = b"x";

/// The global or def `x` of a program.
pub(crate) fn declared(program: &Program) -> Option<&Typed> {
    for i in 0..program.decls.len() {
        if let Some(tree) = program.decls.get(i) {
            if is_asked(tree) {
                return Some(tree);
            }
        }
    }
    None
}

/// Whether a declaration is that of a value `x`.
fn is_asked(tree: &Typed) -> bool {
    match tree.kids.get(1) {
        Some(name) => {
            matches!(tree.kind, Kind::Def | Kind::GlobalLet | Kind::GlobalConst)
                && name.text.bytes() == ASKED
        }
        None => false,
    }
}

/// The type of the value of a declaration: the one that is written, or else its own.
pub(crate) fn type_of(tree: &Typed) -> Option<TypeId> {
    let (Some(written), Some(value)) = (tree.kids.get(2), tree.kids.get(3)) else {
        return None;
    };
    let ty = if written.kind == Kind::None {
        value.ty
    } else {
        written.ty
    };
    match ty {
        Ty::Of(t) => Some(t),
        Ty::Iconst(_) | Ty::Null | Ty::Empty => None,
    }
}
