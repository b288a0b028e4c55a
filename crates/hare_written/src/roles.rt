//! What a part of a written type is to its parent.

ghost use Rattle.std.specs.Prelude.{◌≡◌, true};
ghost use Rattle.hare_tree.specs.declared.kind.Kind.{Kind};
ghost use Rattle.hare_rules.specs.Above as above;
ghost use Rattle.rule_types.specs.Contexts.{role_of};
ghost use Rattle.hare_written.specs.Nodes.{is_written};
ghost use Rattle.hare_written.specs.Roles.{role_in};

use hare_tree::Kind;

/// What a part of a written type is to its parent.
#[derive(Clone, Copy, Debug, PartialEq, Eq)]
pub(crate) enum Role {
    Ordinary,
    /// The type of a binding, which has to have a size.
    BindingType,
    /// The length of an array.
    Length,
}

/// What a whole written type is, which is that of a binding or not.
pub(crate) fn role_of_type(bound: bool) -> Role
    ensures { role_in result ≡ role_of bound }
{
    if bound {
        Role::BindingType
    } else {
        Role::Ordinary
    }
}

/// What the kid with so many before it is to a part of this kind.
pub(crate) fn role_of_kid(k: Kind, i: usize) -> Role
    ensures { is_written k ≡ true → (own : Kind) → role_in result ≡ above.role_of k i own }
{
    match k {
        Kind::TypeArray if i == 0 => Role::Length,
        _ => Role::Ordinary,
    }
}
