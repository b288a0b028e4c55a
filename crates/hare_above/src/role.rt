//! What a node is to its parent.

ghost use Rattle.std.specs.Prelude.{◌≡◌};
ghost use Rattle.hare_rules.specs.Above as above;
ghost use Rattle.hare_tree.specs.declared.kind.Kind.TheVariants as ki;
ghost use Rattle.hare_above.specs.Frames.{role_in};

use crate::asking::is_bare_part;
use hare_tree::Kind;

/// What a node is to its parent, where that says more of it than its kind.
#[derive(Clone, Copy, Debug, PartialEq, Eq)]
pub enum Role {
    /// Nothing more.
    Ordinary,
    /// A path that is called: it is not judged.
    Callee,
    /// The length of an array: it is judged with its array.
    Length,
    /// The written type of a binding: it has to have a size.
    BindingType,
    /// A value of a case of a `switch`: it has a constant.
    CaseValue,
    /// The value of a definition or of a global: it has a constant.
    DeclaredValue,
}

/// The role, where it is so.
fn role_where(b: bool, r: Role) -> Role
    ensures { role_in result ≡ above.role_where b (role_in r) }
{
    if b { r } else { Role::Ordinary }
}

/// The role of kid number `i`, counted from 0, of a declaration with a value.
fn declared_role(i: usize) -> Role
    ensures { role_in result ≡ above.declared_role i }
{
    match i {
        2 => Role::BindingType,
        3 => Role::DeclaredValue,
        _ => Role::Ordinary,
    }
}

/// The role of a callee or not, by its kind.
fn callee_role(i: usize, own: Kind) -> Role
    ensures { role_in result ≡ above.role_of ki.Call i own }
{
    match own {
        Kind::Path => role_where(i == 0, Role::Callee),
        _ => Role::Ordinary,
    }
}

/// The role of kid number `i`, counted from 0, of a node of kind `k`; the kid is of kind `own`.
pub(crate) fn role_of(k: Kind, i: usize, own: Kind) -> Role
    ensures { role_in result ≡ above.role_of k i own }
{
    match k {
        Kind::Call => callee_role(i, own),
        Kind::Let | Kind::Const => role_where(i == 0, Role::BindingType),
        Kind::Param | Kind::PatternLet => Role::BindingType,
        Kind::Def | Kind::GlobalLet | Kind::GlobalConst => declared_role(i),
        Kind::Values => role_where(!is_bare_part(own), Role::CaseValue),
        Kind::TypeArray => role_where(i == 0, Role::Length),
        _ => Role::Ordinary,
    }
}
