//! Which trees have a constant that can be told, and is in each later store the same.

ghost use Rattle.std.specs.Prelude.{◌≡◌, ◌<◌, ◌↔◌, ◌||◌, ℕ, false, is_some, IsTrue, MatchOption, [], ◌∷◌};
ghost use Rattle.std.specs.List.{All};
ghost use Rattle.hare_tree.specs.declared.kind.Kind.TheVariants as kind;
ghost use Rattle.hare_types.specs.declared.coercion.Ty.TheVariants as ty;
ghost use Rattle.hare_typed.specs.Typed.{typed_nodes, kids_of};
ghost use Rattle.hare_typed.specs.Constants.{own_kind};
ghost use Rattle.hare_typed.specs.Constancy.{first_inconstant_of};
ghost use Rattle.hare_typed.specs.ConstantForms.{own_type, int_in, is_iconst as iconst};
ghost use Rattle.hare_typed.specs.Shapes.{int_at};
ghost use Rattle.hare_typed.specs.Settled.{IsWidth};
ghost use Rattle.hare_typed.specs.Sizes.{Fits, HasPart};
ghost use Rattle.hare_typed.specs.Settled as spec;
ghost use Rattle.hare_const.specs.Settled.{IsFound, AreFound};

use crate::constancy::{is_global_path, names_void};
use crate::joined::joins;
use crate::kids::{first_given, type_of_kid};
use crate::measures::{part_with_offset, type_with_offset};
use crate::parts::part_named;
use crate::refused::is_refused;
use crate::shape::{Shape, has_base, is_str, shape_at};
use crate::sizes::{fits, has_part};
use crate::texts::are_texts;
use hare_tree::Kind;
use hare_typed::{Typed, TypedKids};
use hare_types::{Ty, TypeId, TypeStore};

/// Literals below this are numbers of some type.
const END_OF_NUMBERS: u128 = 1 << 127;

/// Whether it is a whole number without a suffix.
fn is_iconst(t: Ty) -> bool
    ensures { result ≡ iconst t }
{
    matches!(t, Ty::Iconst(_))
}

/// Whether a value of the type has bits that operators work on.
fn has_bits(s: &TypeStore, t: TypeId) -> bool
    ensures { IsTrue result ↔ IsWidth (int_at s.now t).bits }
{
    match shape_at(s, t) {
        Some(Shape::Whole(bytes, _)) => bytes > 0,
        Some(Shape::Truth | Shape::Reference | Shape::Nullable) => true,
        None => false,
    }
}

/// The same of a type, where there is one.
fn has_width(s: &TypeStore, t: Ty) -> bool
    ensures { IsTrue result ↔ IsWidth (int_in s.now t).bits }
{
    match t {
        Ty::Of(t) => has_bits(s, t),
        Ty::Iconst(_) | Ty::Null | Ty::Empty => false,
    }
}

/// Whether an operator gives a number with bits, of an operand with a type; or has no type itself.
fn has_number(s: &TypeStore, t: &Typed) -> bool
    ensures { IsTrue result ↔ spec.HasNumber s.now t.now }
{
    is_iconst(t.ty) || (has_width(s, t.ty) && !is_iconst(type_of_kid(t, 0)))
}

/// The same of two operands.
fn has_numbers(s: &TypeStore, t: &Typed) -> bool
    ensures { IsTrue result ↔ spec.HasNumbers s.now t.now }
{
    has_number(s, t) && (is_iconst(t.ty) || !is_iconst(type_of_kid(t, 1)))
}

/// Whether the size of a type can be told, where there is one.
fn is_sized(s: &TypeStore, t: Ty) -> bool
    ensures { IsTrue result ↔ spec.IsSized s.now t }
{
    match t {
        Ty::Of(t) => fits(s, t),
        Ty::Iconst(_) | Ty::Null | Ty::Empty => true,
    }
}

/// Whether a type that fits has so many parts.
fn has_parts(s: &TypeStore, of: TypeId, count: usize) -> bool
    requires { Fits s.now of }
    ensures { IsTrue result ↔ ((k : ℕ) → k < count → HasPart s.now of k) }
{
    count == 0 || has_part(s, of, (count - 1) as u128)
}

/// Whether a tuple has a type with the components that it gives.
fn gives_components(s: &TypeStore, t: &Typed) -> bool
    ensures { IsTrue result ↔ spec.HasParts s.now (own_type t.now) (spec.components_given t.now) }
{
    match t.ty {
        Ty::Of(of) => fits(s, of) && has_parts(s, of, t.kids.len().saturating_sub(1)),
        Ty::Iconst(_) | Ty::Null | Ty::Empty => false,
    }
}

/// Whether a type that fits has the fields that a struct gives.
fn has_fields(s: &TypeStore, of: TypeId, t: &Typed) -> bool
    requires fits { Fits s.now of }
    requires own { own_type t.now ≡ ty.Of of }
    ensures { IsTrue result ↔ All (HasPart s.now of) (spec.fields_given s.now t.now) }
{
    for i in 0..t.kids.len().saturating_sub(2) {
        let Some(field) = t.kids.get(i + 1) else {
            return false;
        };
        if !has_part(s, of, part_named(s, of, field)) {
            return false;
        }
    }
    true
}

/// Whether a struct has a type with the fields that it gives.
fn gives_fields(s: &TypeStore, t: &Typed) -> bool
    ensures { IsTrue result ↔ spec.HasParts s.now (own_type t.now) (spec.fields_given s.now t.now) }
{
    match t.ty {
        Ty::Of(of) => fits(s, of) && has_fields(s, of, t),
        Ty::Iconst(_) | Ty::Null | Ty::Empty => false,
    }
}

/// Whether what an `offset(..)` names is a part of the type in which it stands, and the size of this can be told.
fn has_offset_in(s: &TypeStore, whole: Ty, t: &Typed) -> bool
    requires { spec.type_with_offset s.now t.now ≡ whole }
    ensures { IsTrue result ↔ spec.HasParts s.now whole (spec.part_with_offset s.now t.now ∷ []) }
{
    match whole {
        Ty::Of(of) => fits(s, of) && has_part(s, of, part_with_offset(s, of, t)),
        Ty::Iconst(_) | Ty::Null | Ty::Empty => false,
    }
}

/// Whether what an `offset(..)` names is a part of a type whose size can be told.
fn has_offset(s: &TypeStore, t: &Typed) -> bool
    ensures { IsTrue result ↔ spec.HasParts s.now (spec.type_with_offset s.now t.now) (spec.part_with_offset s.now t.now ∷ []) }
{
    has_offset_in(s, type_with_offset(s, t), t)
}

/// Whether a node has what each node of its kind has that meets its rules.
fn is_asked_kind(s: &TypeStore, t: &Typed) -> bool
    ensures { IsTrue result ↔ spec.AskedKind s.now t.now (own_kind t.now) }
{
    match t.kind {
        Kind::Number | Kind::RuneLit => t.number < END_OF_NUMBERS,
        Kind::Neg | Kind::Not | Kind::Shift => has_number(s, t),
        Kind::Arith => has_numbers(s, t),
        Kind::Size | Kind::Align => is_sized(s, type_of_kid(t, 0)),
        Kind::Tuple => gives_components(s, t),
        Kind::StructLit => gives_fields(s, t),
        Kind::Offset => has_offset(s, t),
        _ => true,
    }
}

/// Whether the first kid, where it is a path to a global, is a place.
fn begins_with_place(s: &TypeStore, t: &Typed) -> bool
    requires { spec.AreSettled s.now (kids_of t.now) }
    ensures { IsTrue result ↔ spec.PlainKind s.now kind.Addr (kids_of t.now) }
{
    let Some(kid) = t.kids.get(0) else {
        return true;
    };
    if !is_global_path(kid) {
        return true;
    }
    !names_void(s, kid.meaning, kid.ty)
}

/// Whether the texts are told that an equality compares, or a node of its operands is of no constant kind, which `refused` says.
fn compares_plainly(s: &TypeStore, t: &Typed, refused: bool) -> bool
    requires { refused ≡ is_some (first_inconstant_of s.now (λ u. false) (kids_of t.now)) }
    ensures { IsTrue result ↔ spec.PlainKind s.now kind.Equal (kids_of t.now) }
{
    if refused {
        return true;
    }
    if !is_str(s, first_given(t)) {
        return true;
    }
    are_texts(s, t)
}

/// Whether the texts are told that a node compares, or a node of its operands is of no constant kind, and it is no address of what is no
/// place.
fn is_plain_kind(s: &TypeStore, t: &Typed, refused: bool) -> bool
    requires kids { spec.AreSettled s.now (kids_of t.now) }
    requires refused { refused ≡ is_some (first_inconstant_of s.now (λ u. false) (kids_of t.now)) }
    ensures { IsTrue result ↔ spec.PlainKind s.now (own_kind t.now) (kids_of t.now) }
{
    match t.kind {
        Kind::Equal => compares_plainly(s, t, refused),
        Kind::Addr => begins_with_place(s, t),
        _ => true,
    }
}

/// Whether the value of a node can be told of its kids', and rests on no name that is not defined. The kids are settled, and `refused` says
/// whether a node among them is of no constant kind.
fn is_settled_node(s: &TypeStore, t: &Typed, refused: bool) -> bool
    requires kids { spec.AreSettled s.now (kids_of t.now) }
    requires refused { refused ≡ is_some (first_inconstant_of s.now (λ u. false) (kids_of t.now)) }
    ensures { IsTrue result ↔ spec.IsSettledNode s.now t.now }
{
    has_base(s, t.ty)
        && has_base(s, t.coerce.to)
        && joins(s, t)
        && is_asked_kind(s, t)
        && is_plain_kind(s, t, refused)
}

/// Whether one of two is so.
fn either(a: bool, b: bool) -> bool
    ensures { result ≡ (a || b) }
{
    a || b
}

/// Of a tree that is settled, whether one of its nodes is of no constant kind; none of another.
#[cycle(settled)]
fn refused_in(s: &TypeStore, t: &Typed) -> Option<bool>
    ensures { MatchOption result (¬ spec.IsSettled s.now t.now) (IsFound s.now t.now) }
{
    match refused_among(s, &t.kids) {
        Some(within) => {
            if !is_settled_node(s, t, within) {
                return None;
            }
            Some(is_refused(s, t, within))
        }
        None => None,
    }
}

/// The same of some trees: none where one of them is not settled.
#[cycle(settled)]
fn refused_among(s: &TypeStore, kids: &TypedKids) -> Option<bool>
    ensures { MatchOption result (¬ spec.AreSettled s.now (typed_nodes kids.now)) (AreFound s.now (typed_nodes kids.now)) }
{
    let mut refused = false;
    for i in 0..kids.len() {
        let kid = kids.get(i)?;
        match refused_in(s, kid) {
            Some(here) => refused = either(refused, here),
            None => return None,
        }
    }
    Some(refused)
}

/// Whether the constant of a tree can be told, and rests on no name that is not defined yet. The work of a node is constant, but for the
/// fields of a struct, the members of a union to which a value goes, and the bytes of texts that are compared; the call goes as deep in the
/// host as the tree is.
pub fn is_settled(s: &TypeStore, t: &Typed) -> bool
    ensures { IsTrue result ↔ spec.IsSettled s.now t.now }
{
    refused_in(s, t).is_some()
}
