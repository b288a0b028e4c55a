//! The id of a type in its store.

ghost use Rattle.std.specs.Prelude.{◌≡◌};

use std::marker::Model;

/// The id of a type: the number of types that its store took in before it. Contracts see the number.
#[derive(Clone, Copy, Debug, PartialEq, Eq, Hash)]
pub struct TypeId {
    index: u32,
}

impl Model for TypeId {
    ghost use Rattle.std.specs.Prelude.{ℕ};

    ghost Value = { ℕ };

    ghost view = { λ t. t.index };

    ghost inverse = { λ n. record { index = n } };
}

impl TypeId {
    /// The type that has `index` types before it.
    pub(crate) fn at(index: u32) -> TypeId
        ensures { result ≡ index }
    {
        TypeId { index }
    }

    /// How many types stand before this one.
    pub fn index(self) -> u32
        ensures { result ≡ self }
    {
        self.index
    }
}
