//! Whose values the value of a node is made of.

ghost use Rattle.std.specs.Prelude.{◌≡◌};
ghost use Rattle.hare_const.specs.NodeValues as spec;

use hare_tree::Kind;

/// Whose values the value of a node is made of.
#[derive(Clone, Copy, Debug, PartialEq, Eq)]
pub(crate) enum Operands {
    /// Those of no kid.
    NoKid,
    /// That of the first kid.
    OneKid,
    /// Those of the first two kids.
    TwoKids,
    /// That of the first kid, and that of the second where the first leaves the answer open.
    RightIfOpen,
    /// Those of the components of a tuple.
    Components,
    /// Those of the fields of a struct.
    Fields,
    /// Those of the items of an array.
    Elements,
}

/// Whose values the value of a node of this kind is made of.
pub(crate) fn operands_of(kind: Kind) -> Operands
    ensures { result ≡ spec.operands_of kind }
{
    match kind {
        Kind::Paren
        | Kind::FieldValue
        | Kind::Neg
        | Kind::Not
        | Kind::Bang
        | Kind::Cast
        | Kind::Len => Operands::OneKid,
        Kind::Arith | Kind::Shift | Kind::Less | Kind::Equal => Operands::TwoKids,
        Kind::Logic => Operands::RightIfOpen,
        Kind::Tuple => Operands::Components,
        Kind::StructLit => Operands::Fields,
        Kind::Array => Operands::Elements,
        _ => Operands::NoKid,
    }
}
