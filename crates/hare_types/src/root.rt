//! What lies under names and error marks.

ghost use Rattle.std.specs.Prelude.{◌≡◌, IfSome};
ghost use Rattle.hare_types.specs.Packed.{Tells};

use crate::id::TypeId;
use crate::packed::PackedId;
use std::marker::Model;

/// What is known of a type once names and error marks are followed: what it comes to where neither is left, and whether an error mark was
/// met on the way. A type is known to be an error type as soon as a mark is met, before its base is known.
#[derive(Clone, Copy, Debug, PartialEq, Eq)]
pub(crate) struct Root {
    pub base: Option<TypeId>,
    pub is_error: bool,
}

/// A root, where there is one. Contracts see the root.
#[derive(Clone, Copy, Drop)]
pub(crate) struct PackedRoot {
    base: PackedId,
    is_error: bool,
}

impl Model for PackedRoot {
    ghost use Rattle.std.specs.Prelude.{Option};
    ghost use Rattle.hare_types.specs.declared.root.Root.{Root as RootOf};
    ghost use Rattle.hare_types.specs.Packed.{root_in, base_in, mark_in};
    ghost use Rattle.hare_types.specs.PackedLaws.{base_in-root_in, mark_in-root_in};

    ghost Value = { Option RootOf };

    ghost view = { λ a. root_in a.base a.is_error };

    ghost inverse = { λ x. record { base = base_in x; is_error = mark_in x } };

    ghost inverse_ok = { λ a h i. record { base = base_in-root_in a.base a.is_error i; is_error = mark_in-root_in a.base a.is_error i } };
}

impl PackedRoot {
    /// The root. A store takes in no type with the greatest number.
    pub(crate) fn of(root: Option<Root>) -> PackedRoot
        requires { IfSome root (λ r. Tells r) }
        ensures { result ≡ root }
    {
        match root {
            Some(r) => PackedRoot {
                base: PackedId::of(r.base),
                is_error: r.is_error,
            },
            None => PackedRoot {
                base: PackedId::of(None),
                is_error: false,
            },
        }
    }

    /// The root.
    pub(crate) fn get(self) -> Option<Root>
        ensures value { result ≡ self }
        ensures tells { IfSome result (λ r. Tells r) }
    {
        match self.base.get() {
            Some(base) => Some(Root {
                base: Some(base),
                is_error: self.is_error,
            }),
            None => {
                if self.is_error {
                    Some(Root {
                        base: None,
                        is_error: true,
                    })
                } else {
                    None
                }
            }
        }
    }
}
