//! Members of structs and of tuples.

ghost use Rattle.std.specs.Prelude.{◌≡◌, slice_get, option_map, Some, IfSome};
ghost use Rattle.std.specs.List.{list_all};
ghost use Rattle.std.specs.Char.{is_ascii_digit};
ghost use Rattle.hare_tree.specs.Node.{head};
ghost use Rattle.hare_types.specs.declared.row.Row.TheVariants.{Struct, Tuple};
ghost use Rattle.hare_types.specs.ByIds.{row_at};
ghost use Rattle.hare_types.specs.Store.{Store};
ghost use Rattle.hare_types.specs.Later.{IsLater};
ghost use Rattle.hare_typed.specs.Given as given;
ghost use Rattle.hare_rules.specs.Aggregates as spec;
ghost use Rattle.rule_judge.specs.Defined.{IsDefined, IsDefinedTy};
ghost use Rattle.rule_mem.specs.Members.{member_of};

use hare_tree::{Suffix, Tree};
use hare_types::{Fields, Row, Ty, TypeId, TypeIds, TypeStore};
use rule_judge::base_row;

/// Whether these are decimal digits.
fn are_digits(text: &[u8]) -> bool
    ensures { result ≡ list_all is_ascii_digit text.now }
{
    text.iter().all(|c| c.is_ascii_digit())
}

/// Whether a spelling is one of decimal digits alone.
fn is_decimal(text: &[u8]) -> bool
    ensures { result ≡ spec.is_decimal text.now }
{
    if text.is_empty() {
        return false;
    }
    are_digits(text)
}

/// Whether the member is a component of a tuple by its spelling: decimal digits alone, and no suffix.
fn is_component_number(text: &[u8], suffix: Suffix) -> bool
    ensures { result ≡ spec.is_component_number text.now suffix }
{
    match suffix {
        Suffix::None => is_decimal(text),
        _ => false,
    }
}

/// The component of a tuple that a node names.
fn component(types: &TypeIds, node: &Tree) -> Option<TypeId>
    ensures { (s : Store) → result ≡ member_of s (head node.now) (Some (Tuple types.now)) }
{
    let places = types.len() as u128;
    if node.number < places && is_component_number(node.text.bytes(), node.suffix) {
        types.get(node.number as usize).copied()
    } else {
        None
    }
}

/// The type of the field at a place.
fn type_at(fields: &Fields, place: usize) -> Option<TypeId>
    ensures { result ≡ option_map (λ f. f.ty) (slice_get fields.now place) }
{
    match fields.get(place) {
        Some(f) => Some(f.ty),
        None => None,
    }
}

/// The type of the field with this name of a struct. The time is constant.
pub(crate) fn field(s: &TypeStore, t: TypeId, fields: &Fields, text: &[u8]) -> Option<TypeId>
    requires { row_at s.now t ≡ Some (Struct fields.now) }
    ensures { (f : Store) → IsLater s.now f → result ≡ spec.field_type f (Some (Struct fields.now)) text.now }
{
    let _law = s.declarations();
    let Some(name) = s.find_name(text) else {
        return None;
    };
    match s.field(t, name) {
        Some(place) => type_at(fields, place),
        None => None,
    }
}

/// The type of the member that a node names of what has this type: a field of a struct by its name, or a component of a tuple by its
/// number. The time is constant.
pub(crate) fn member(s: &TypeStore, a: &Ty, node: &Tree) -> Option<TypeId>
    requires { IsDefinedTy s.now a.now }
    ensures value { (f : Store) → IsLater s.now f → result ≡ member_of f (head node.now) (given.base_row f a.now) }
    ensures defined { IfSome result (λ t. IsDefined s.now t) }
{
    let Ty::Of(t) = a else {
        return None;
    };
    let Some(row) = base_row(s, a) else {
        return None;
    };
    let Some(b) = s.base(*t) else {
        return None;
    };
    match row {
        Row::Tuple(types) => component(types, node),
        Row::Struct(fields) => field(s, b, fields, node.text.bytes()),
        _ => None,
    }
}

/// The type of the field with this name of what has this type. The time is constant. The condition is that the type is in the store, and
/// mentions no name that is not defined.
pub fn field_of(s: &TypeStore, a: &Ty, text: &[u8]) -> Option<TypeId>
    requires { IsDefinedTy s.now a.now }
    ensures { (f : Store) → IsLater s.now f → result ≡ spec.field_type f (given.base_row f a.now) text.now }
{
    let Ty::Of(t) = a else {
        return None;
    };
    let Some(row) = base_row(s, a) else {
        return None;
    };
    let Some(b) = s.base(*t) else {
        return None;
    };
    match row {
        Row::Struct(fields) => field(s, b, fields, text),
        _ => None,
    }
}
