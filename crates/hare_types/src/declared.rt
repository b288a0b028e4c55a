//! What is entered of declared types.

ghost use Rattle.std.specs.Prelude.{◌≡◌, IfSome, IsSome, Some, nat_eq};
ghost use Rattle.indexmap.specs.IndexMap.{get, Updates};

use crate::id::TypeId;
use indexmap::IndexMap;

/// What is entered of a declared type: whether it has a size, and what it is defined to be.
#[derive(Clone, Copy, Drop)]
pub struct Declared {
    pub sized: bool,
    pub definition: Option<TypeId>,
}

/// Enters what a declared type is defined to be.
pub(crate) fn set_definition(declared: &mut IndexMap<u32, Declared>, decl: u32, t: TypeId)
    requires { IsSome (get nat_eq declared.old decl) }
    ensures { IfSome (get nat_eq declared.old decl)
        (λ e. Updates nat_eq declared.old declared.new decl (Some (record e { definition = Some t }))) }
{
    match declared.get_mut(&decl) {
        Some(entry) => entry.definition = Some(t),
        None => unreachable!(),
    }
}
