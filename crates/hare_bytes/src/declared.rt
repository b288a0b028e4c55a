//! The types of globals.

ghost use Rattle.std.specs.Prelude.{◌≡◌, Some, min, IfOk, not};
ghost use Rattle.hare_tree.specs.Shape.{is_none};
ghost use Rattle.hare_types.specs.ByIds.{size_at};
ghost use Rattle.hare_types.specs.declared.coercion.Ty.TheVariants.{Iconst};
ghost use Rattle.hare_rules.specs.Words as words;
ghost use Rattle.hare_rules.specs.Context.{own_type};
ghost use Rattle.hare_whole.specs.Parts.{type_part, value_part, declared_id};
ghost use Rattle.hare_costs.specs.Amounts.{most};

use crate::sizes::{row_of, size_of};
use hare_tree::Kind;
use hare_typed::Typed;
use hare_types::{Row, Scalar, Ty, TypeId, TypeStore};
use std::alloc::AllocError;

/// The size of the type of a global, up to 2^40.
pub fn declared_size(s: &TypeStore, decl: &Typed) -> Result<u64, AllocError>
    ensures { IfOk result (λ n. n ≡ min (size_at s.now (declared_id s.now (type_part decl.now) (value_part decl.now))) most) }
{
    let t = declared_type(s, decl)?;
    Ok(size_of(s, t))
}

/// The type of a global: the one that is written, or else the default of its value's.
fn declared_type(s: &TypeStore, decl: &Typed) -> Result<TypeId, AllocError>
    ensures { IfOk result (λ t. t ≡ declared_id s.now (type_part decl.now) (value_part decl.now)) }
{
    let Some(written) = decl.kids.get(2) else {
        return Err(AllocError);
    };
    let Some(value) = decl.kids.get(3) else {
        return Err(AllocError);
    };
    if is_there(written.kind) {
        written_type(&written.ty)
    } else {
        default_of(s, value)
    }
}

/// Whether a part of this kind is not left out.
fn is_there(k: Kind) -> bool
    ensures { result ≡ not (is_none k) }
{
    !matches!(k, Kind::None)
}

/// The type that is written.
fn written_type(a: &Ty) -> Result<TypeId, AllocError>
    ensures { IfOk result (λ t. words.id_in a.now ≡ Some t) }
{
    match a {
        Ty::Of(t) => Ok(*t),
        Ty::Iconst(_) | Ty::Null | Ty::Empty => Err(AllocError),
    }
}

/// The default type of a value. A whole number without a suffix goes to its default, so that this stands beside it.
fn default_of(s: &TypeStore, value: &Typed) -> Result<TypeId, AllocError>
    ensures { IfOk result (λ t. words.default_in s.now (own_type value.now) ≡ Some t) }
{
    match &value.ty {
        Ty::Of(t) => Ok(*t),
        Ty::Iconst(v) => default_beside(s, *v, &value.coerce.to),
        Ty::Null | Ty::Empty => Err(AllocError),
    }
}

/// The type to which a whole number without a suffix goes, where that is its default.
fn default_beside(s: &TypeStore, v: i128, to: &Ty) -> Result<TypeId, AllocError>
    ensures { IfOk result (λ t. words.default_in s.now (Iconst v) ≡ Some t) }
{
    let (Some(word), Ty::Of(t)) = (Scalar::default_of(v), to) else {
        return Err(AllocError);
    };
    if is_word(row_of(s, *t)?, word) {
        Ok(*t)
    } else {
        Err(AllocError)
    }
}

/// Whether a row is that of a word.
fn is_word(row: &Row, word: Scalar) -> bool
    ensures { result ≡ words.is_word word (Some row.now) }
{
    match row {
        Row::Scalar(k) => word == *k,
        _ => false,
    }
}
