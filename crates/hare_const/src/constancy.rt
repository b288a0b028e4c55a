//! Which nodes are of constant kinds.

ghost use Rattle.std.specs.Prelude.{◌≡◌, ◌<◌, length};
ghost use Rattle.hare_tree.specs.Levels.{is_type as a_type};
ghost use Rattle.hare_types.specs.declared.coercion.Ty.TheVariants as ty;
ghost use Rattle.hare_types.specs.ByIds.{row_at};
ghost use Rattle.hare_types.specs.Assign.{IsIn};
ghost use Rattle.hare_typed.specs.Typed.{mark_of, kids_of};
ghost use Rattle.hare_typed.specs.Given.{base_row as row_of_base};
ghost use Rattle.hare_typed.specs.Constants.{is_known as known, own_kind};
ghost use Rattle.hare_typed.specs.Evaluated.{is_evaluated as evaluated};
ghost use Rattle.hare_typed.specs.Constancy as spec;
ghost use Rattle.hare_typed.specs.ConstantForms.{own_type};

use crate::kids::first_given;
use crate::shape::base_row;
use hare_tree::{Kind, Meaning};
use hare_typed::{Const, Typed};
use hare_types::{Row, Scalar, Ty, TypeId, TypeStore};

/// The number of the row of the table of assignability by which a value of type never goes to any type.
const OF_NEVER: u8 = 2;

/// Whether a node of this kind is a type.
pub(crate) fn is_type(kind: Kind) -> bool
    ensures { result ≡ a_type kind }
{
    matches!(
        kind,
        Kind::TypeScalar
            | Kind::TypePath
            | Kind::TypePointer
            | Kind::TypeNullable
            | Kind::TypeSlice
            | Kind::TypeError
            | Kind::TypeArray
            | Kind::TypeStruct
            | Kind::TypeTuple
            | Kind::TypeUnion
    )
}

/// Whether a node of this kind is evaluated: declarations, types and patterns are not, nor is what only stands for a token or holds what
/// another node looks at.
pub(crate) fn is_evaluated(kind: Kind) -> bool
    ensures { result ≡ evaluated kind }
{
    match kind {
        Kind::None
        | Kind::Use
        | Kind::UseAlias
        | Kind::UseNames
        | Kind::ImportPath
        | Kind::Def
        | Kind::GlobalLet
        | Kind::GlobalConst
        | Kind::TypeDecl
        | Kind::Fn
        | Kind::Params => false,
        Kind::Param
        | Kind::StructField
        | Kind::Name
        | Kind::Export
        | Kind::TrailingComma
        | Kind::Dots
        | Kind::ByRef => false,
        Kind::TypeScalar
        | Kind::TypePath
        | Kind::TypePointer
        | Kind::TypeNullable
        | Kind::TypeSlice
        | Kind::TypeError
        | Kind::TypeArray
        | Kind::TypeStruct
        | Kind::TypeTuple
        | Kind::TypeUnion => false,
        Kind::Spread
        | Kind::Message
        | Kind::Binding
        | Kind::PatternLet
        | Kind::PatternNull
        | Kind::Values => false,
        _ => true,
    }
}

/// Whether a node of this kind has no value of its own, and only holds others or stands for a token.
fn is_wrapper(kind: Kind) -> bool
    ensures { result ≡ spec.is_wrapper kind }
{
    matches!(
        kind,
        Kind::None
            | Kind::TrailingComma
            | Kind::Dots
            | Kind::ByRef
            | Kind::Message
            | Kind::Name
            | Kind::FieldValue
            | Kind::Binding
            | Kind::Values
            | Kind::Case
            | Kind::SwitchCase
            | Kind::PatternLet
            | Kind::PatternNull
    )
}

/// Whether the type is the declared one itself.
fn is_name_of(s: &TypeStore, decl: u32, t: TypeId) -> bool
    requires { t < length s.now.rows }
    ensures { result ≡ spec.is_name_of decl (row_at s.now t) }
{
    match s.row(t) {
        Row::Named(other) => decl == *other,
        _ => false,
    }
}

/// Whether the base of a type is void.
fn is_void(s: &TypeStore, t: TypeId) -> bool
    ensures { result ≡ spec.is_void_row (row_of_base s.now (ty.Of t)) }
{
    matches!(base_row(s, t), Some(Row::Scalar(Scalar::Void)))
}

/// Whether a path means the declared type that it has as its type, and whose base is void.
pub(crate) fn names_void(s: &TypeStore, meaning: Meaning, t: Ty) -> bool
    requires { IsIn s.now t }
    ensures { result ≡ spec.names_void s.now meaning t }
{
    match (meaning, t) {
        (Meaning::Decl(decl), Ty::Of(t)) => is_name_of(s, decl, t) && is_void(s, t),
        _ => false,
    }
}

/// Whether there is a constant.
fn is_known(value: &Const) -> bool
    ensures { result ≡ known value.now }
{
    matches!(value, Const::Known { .. })
}

/// Whether the base of a type is a pointer, null or not.
fn is_address(s: &TypeStore, t: Ty) -> bool
    ensures { result ≡ spec.is_address_row (row_of_base s.now t) }
{
    let Ty::Of(t) = t else {
        return false;
    };
    matches!(base_row(s, t), Some(Row::Pointer(_) | Row::Nullable(_)))
}

/// Whether the base of a type is an array or a text.
fn is_counted(s: &TypeStore, t: Ty) -> bool
    ensures { result ≡ spec.is_counted_row (row_of_base s.now t) }
{
    let Ty::Of(t) = t else {
        return false;
    };
    matches!(
        base_row(s, t),
        Some(Row::Array(_, _) | Row::Scalar(Scalar::Str))
    )
}

/// Whether a tree is a path to a global.
pub(crate) fn is_global_path(t: &Typed) -> bool
    ensures { result ≡ spec.is_global_path (own_kind t.now) (mark_of t.now) }
{
    match t.kind {
        Kind::Path => match t.meaning {
            Meaning::Decl(_) => !is_known(&t.value),
            _ => false,
        },
        _ => false,
    }
}

/// Whether the first kid is a path to a global.
fn begins_with_global(t: &Typed) -> bool
    ensures { result ≡ spec.begins_with_global (kids_of t.now) }
{
    match t.kids.get(0) {
        Some(kid) => is_global_path(kid),
        None => false,
    }
}

/// Whether what stands in a node is passed over: the kid of `offset`, and the path of the address of a global.
pub(crate) fn hides_kids(t: &Typed) -> bool
    ensures { result ≡ spec.hides_kids (own_kind t.now) (kids_of t.now) }
{
    match t.kind {
        Kind::Offset => true,
        Kind::Addr => begins_with_global(t),
        _ => false,
    }
}

/// Whether a node is of a constant kind: a path is so to a def, which has its constant, or to a type of base void.
fn is_constant_kind(s: &TypeStore, t: &Typed) -> bool
    requires { IsIn s.now (own_type t.now) }
    ensures { result ≡ spec.is_constant_kind s.now (own_kind t.now) (mark_of t.now) (kids_of t.now) }
{
    match t.kind {
        Kind::Number
        | Kind::Str
        | Kind::RuneLit
        | Kind::Bool
        | Kind::Null
        | Kind::Void
        | Kind::Paren
        | Kind::Neg
        | Kind::Not
        | Kind::Bang
        | Kind::Arith
        | Kind::Shift
        | Kind::Logic
        | Kind::Cast
        | Kind::Tuple
        | Kind::Array
        | Kind::StructLit
        | Kind::Size
        | Kind::Align
        | Kind::Offset => true,
        Kind::Path => is_known(&t.value) || names_void(s, t.meaning, t.ty),
        Kind::Less | Kind::Equal => !is_address(s, first_given(t)),
        Kind::Len => is_counted(s, first_given(t)),
        Kind::Addr => begins_with_global(t),
        _ => false,
    }
}

/// Whether a node is constant by itself. A value of type never has no constant, whatever it is coerced to.
pub(crate) fn is_constant(s: &TypeStore, t: &Typed) -> bool
    requires { IsIn s.now (own_type t.now) }
    ensures { result ≡ spec.is_constant s.now (own_kind t.now) (mark_of t.now) (kids_of t.now) }
{
    is_wrapper(t.kind) || (is_constant_kind(s, t) && t.coerce.row != OF_NEVER)
}
