//! The bases of types, and the scalar types among them.

ghost use Rattle.std.specs.Prelude.{◌≡◌, ◌↔◌, IsTrue, option_copied, option_map, IfSome};
ghost use Rattle.hare_types.specs.declared.coercion.Ty.TheVariants as ty;
ghost use Rattle.hare_typed.specs.Given.{base_row, is_str as str_type};
ghost use Rattle.hare_typed.specs.Shapes as spec;
ghost use Rattle.hare_typed.specs.Settled.{HasBase};
ghost use Rattle.hare_const.specs.Shapes.{shape_of, IsNarrow};

use hare_types::{Row, Scalar, Ty, TypeId, TypeStore};

/// The bytes of a rune.
const RUNE_BYTES: u32 = 4;

/// What is needed of a scalar type.
#[derive(Clone, Copy, Debug, PartialEq, Eq)]
pub(crate) enum Shape {
    /// An integer type, a rune, and void with no bytes.
    Whole(u32, bool),
    /// A bool.
    Truth,
    /// A pointer that is never null.
    Reference,
    /// A pointer that may be null.
    Nullable,
}

/// The row of the base of a type; none where it comes to a name that is not defined.
pub(crate) fn base_row(s: &TypeStore, t: TypeId) -> Option<&Row>
    ensures { option_copied result ≡ base_row s.now (ty.Of t) }
{
    let b = s.base(t)?;
    Some(s.row(b))
}

/// Whether each name is defined to which a type comes, where there is one.
pub(crate) fn has_base(s: &TypeStore, t: Ty) -> bool
    ensures { IsTrue result ↔ HasBase s.now t }
{
    match t {
        Ty::Of(t) => s.base(t).is_some(),
        Ty::Iconst(_) | Ty::Null | Ty::Empty => true,
    }
}

/// Whether the base of a type is str.
pub(crate) fn is_str(s: &TypeStore, t: Ty) -> bool
    ensures { result ≡ str_type s.now t }
{
    let Ty::Of(t) = t else {
        return false;
    };
    matches!(base_row(s, t), Some(Row::Scalar(Scalar::Str)))
}

/// The shape of a type that is one word.
fn shape_of_word(k: Scalar) -> Option<Shape>
    ensures value { option_map shape_of result ≡ spec.shape_of_word k }
    ensures narrow { IfSome result IsNarrow }
{
    match k {
        Scalar::Void => Some(Shape::Whole(0, false)),
        Scalar::Bool => Some(Shape::Truth),
        Scalar::Rune => Some(Shape::Whole(RUNE_BYTES, false)),
        _ => match k.is_signed() {
            Some(signed) => Some(Shape::Whole(k.bits() / 8, signed)),
            None => None,
        },
    }
}

/// The shape of a type, where its base is scalar.
pub(crate) fn shape_at(s: &TypeStore, t: TypeId) -> Option<Shape>
    ensures value { option_map shape_of result ≡ spec.shape_at s.now t }
    ensures narrow { IfSome result IsNarrow }
{
    match base_row(s, t) {
        Some(Row::Scalar(k)) => shape_of_word(*k),
        Some(Row::Pointer(_)) => Some(Shape::Reference),
        Some(Row::Nullable(_)) => Some(Shape::Nullable),
        _ => None,
    }
}
