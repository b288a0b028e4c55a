//! Optional values in one word each, so that what is kept beside a row takes little memory.

ghost use Rattle.std.specs.Prelude.{◌≡◌, ◌<◌, IfSome};
ghost use Rattle.hare_types.specs.Numbering.{most};
ghost use Rattle.hare_types.specs.Kept.{IsBounded};

use crate::extent::Extent;
use crate::id::TypeId;
use std::marker::Model;

/// An extent, where there is one: 0 for none, and else the size above four bits for the alignment. Contracts see the extent.
#[derive(Clone, Copy, Drop)]
pub(crate) struct PackedExtent {
    word: u64,
}

impl Model for PackedExtent {
    ghost use Rattle.std.specs.Prelude.{Option};
    ghost use Rattle.hare_types.specs.declared.extent.Extent.{Extent as ExtentOf};
    ghost use Rattle.hare_types.specs.Packed.{extent_in, extent_word};
    ghost use Rattle.hare_types.specs.PackedLaws.{extent_word-extent_in};

    ghost Value = { Option ExtentOf };

    ghost view = { λ a. extent_in a.word };

    ghost inverse = { λ x. record { word = extent_word x } };

    ghost inverse_ok = { λ a h i. record { word = extent_word-extent_in a.word i } };
}

impl PackedExtent {
    /// The extent in a word.
    pub(crate) fn of(extent: Option<Extent>) -> PackedExtent
        requires { IfSome extent (λ x. IsBounded x) }
        ensures { result ≡ extent }
    {
        match extent {
            Some(x) => PackedExtent {
                word: 16 * x.size + x.align,
            },
            None => PackedExtent { word: 0 },
        }
    }

    /// The extent.
    pub(crate) fn get(self) -> Option<Extent>
        ensures { result ≡ self }
    {
        if self.word == 0 {
            return None;
        }
        Some(Extent {
            size: self.word / 16,
            align: self.word % 16,
        })
    }
}

/// The id of a type, where there is one: 0 for none, and else the id and 1. Contracts see the id.
#[derive(Clone, Copy, Drop)]
pub(crate) struct PackedId {
    word: u32,
}

impl Model for PackedId {
    ghost use Rattle.std.specs.Prelude.{ℕ, Option};
    ghost use Rattle.hare_types.specs.Packed.{id_in, id_word};
    ghost use Rattle.hare_types.specs.PackedLaws.{id_word-id_in};

    ghost Value = { Option ℕ };

    ghost view = { λ a. id_in a.word };

    ghost inverse = { λ x. record { word = id_word x } };

    ghost inverse_ok = { λ a h i. record { word = id_word-id_in a.word i } };
}

impl PackedId {
    /// The id in a word. A store takes in no type with the greatest number.
    pub(crate) fn of(id: Option<TypeId>) -> PackedId
        requires { IfSome id (λ t. t < most) }
        ensures { result ≡ id }
    {
        match id {
            Some(t) => PackedId {
                word: t.index() + 1,
            },
            None => PackedId { word: 0 },
        }
    }

    /// The id.
    pub(crate) fn get(self) -> Option<TypeId>
        ensures value { result ≡ self }
        ensures within { IfSome result (λ t. t < most) }
    {
        if self.word == 0 {
            return None;
        }
        Some(TypeId::at(self.word - 1))
    }
}
