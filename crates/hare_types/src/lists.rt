//! The lists that stand in a row: members of unions and tuples, and fields of structs.

ghost use Rattle.std.specs.Prelude.{◌≡◌, [], ◌∷◌, ◌++◌, length, slice_get, option_copied, OnOk, OnErr, nat_eq};
ghost use Rattle.std.specs.Cmp.Lexicographic.{pointwise};
ghost use Rattle.hare_types.specs.Keys.{field_eq};

use crate::id::TypeId;
use std::alloc::{AllocError, Global};
use std::marker::Model;

/// A list of types, as the components of a tuple or the members of a union.
#[derive(Drop)]
pub struct TypeIds {
    items: Vec<TypeId>,
}

impl Model for TypeIds {
    ghost use Rattle.std.specs.Prelude.{List, ℕ};

    ghost Value = { List ℕ };

    ghost view = { λ a. a.items.items };
}

impl TypeIds {
    /// An empty list.
    pub fn new(alloc: Global) -> TypeIds
        ensures { result ≡ [] }
    {
        TypeIds {
            items: Vec::new(alloc),
        }
    }

    /// Puts a type at the end. Nothing changes where memory is short.
    pub fn push(&mut self, t: TypeId) -> Result<(), AllocError>
        ensures ok { OnOk result (self.new ≡ self.old ++ t ∷ []) }
        ensures err { OnErr result (self.new ≡ self.old) }
    {
        self.items.push(t)?;
        Ok(())
    }

    /// How many types there are.
    pub fn len(&self) -> usize
        ensures { result ≡ length self.now }
    {
        self.items.len()
    }

    /// The type at a place.
    pub fn get(&self, i: usize) -> Option<&TypeId>
        ensures { option_copied result ≡ slice_get self.now i }
    {
        self.items.get(i)
    }

    /// The types in their order.
    pub fn as_slice(&self) -> &[TypeId]
        ensures { result.now ≡ self.now }
    {
        self.items.as_slice()
    }

    /// Whether both lists have the same types in the same order.
    pub fn same(&self, other: &TypeIds) -> bool
        ensures { result ≡ pointwise nat_eq self.now other.now }
    {
        self.items == other.items
    }
}

/// A field of a struct: the number of its name, and its type.
#[derive(Clone, Copy, Debug, PartialEq, Eq, Hash)]
pub struct Field {
    pub name: u32,
    pub ty: TypeId,
}

/// The fields of a struct, in the order in which they are written.
#[derive(Drop)]
pub struct Fields {
    items: Vec<Field>,
}

impl Model for Fields {
    ghost use Rattle.std.specs.Prelude.{List};
    ghost use Rattle.hare_types.specs.declared.lists.Field.{Field};

    ghost Value = { List Field };

    ghost view = { λ a. a.items.items };
}

impl Fields {
    /// No fields.
    pub fn new(alloc: Global) -> Fields
        ensures { result ≡ [] }
    {
        Fields {
            items: Vec::new(alloc),
        }
    }

    /// Puts a field at the end. Nothing changes where memory is short.
    pub fn push(&mut self, field: Field) -> Result<(), AllocError>
        ensures ok { OnOk result (self.new ≡ self.old ++ field ∷ []) }
        ensures err { OnErr result (self.new ≡ self.old) }
    {
        self.items.push(field)?;
        Ok(())
    }

    /// How many fields there are.
    pub fn len(&self) -> usize
        ensures { result ≡ length self.now }
    {
        self.items.len()
    }

    /// The field at a place.
    pub fn get(&self, i: usize) -> Option<&Field>
        ensures { option_copied result ≡ slice_get self.now i }
    {
        self.items.get(i)
    }

    /// The fields in their order.
    pub fn as_slice(&self) -> &[Field]
        ensures { result.now ≡ self.now }
    {
        self.items.as_slice()
    }

    /// Whether both lists have the same fields in the same order.
    pub fn same(&self, other: &Fields) -> bool
        ensures { result ≡ pointwise field_eq self.now other.now }
    {
        self.items == other.items
    }
}
