//! What a type is defined to be.

ghost use Rattle.std.specs.Prelude.{◌≡◌, ℕ, ◌<◌, not, is_some, length, Some, None, IfSome, OnOk, OnErr};
ghost use Rattle.hare_types.specs.ByValue.{scalar_size, has_size, HoldsByValue};
ghost use Rattle.hare_types.specs.Store.{tree_at, definition_of};
ghost use Rattle.hare_typed.specs.Order.{tree_from_front};
ghost use Rattle.hare_whole.specs.Parts.{written_id};
ghost use Rattle.hare_turns.specs.Laws.{DefinesOneMore};

use crate::parts::written_at;
use hare_typed::TypedKids;
use hare_types::{Row, Scalar, TypeId, TypeStore};
use std::alloc::AllocError;

/// Whether values of a type that is written by one word have no size.
fn lacks_size(k: Scalar) -> bool
    ensures { result ≡ not (is_some (scalar_size k)) }
{
    matches!(k, Scalar::Never | Scalar::Opaque)
}

/// Whether a type has a size, where it is seen that it holds by value no name which is not defined: its bytes are known, or it is `never`
/// or `opaque` once names and error marks are followed.
fn measured(s: &TypeStore, t: TypeId) -> Option<bool>
    ensures within { IfSome result (λ b. t < length s.now.rows) }
    ensures sized { IfSome result (λ b. IfSome (tree_at s.now t) (λ u. has_size s.now u ≡ Some b)) }
    ensures finite { IfSome result (λ b. (d : ℕ) → definition_of s.now d ≡ None →
        IfSome (tree_at s.now t) (λ u. ¬ HoldsByValue s.now u d)) }
{
    if s.extent(t).is_some() {
        return Some(true);
    }
    let b = s.base(t)?;
    let Row::Scalar(k) = s.row(b) else {
        return None;
    };
    if !lacks_size(*k) {
        return None;
    }
    Some(false)
}

/// Defines a declared type as it is written, by the typed tree of that type.
///
/// A type that is not declared or is defined already, one whose size is declared otherwise, and one of which it is not seen that it does
/// not hold the name by value, are answered as want of memory; then nothing changes. All are ruled out where types are declared as they are
/// written, and judged in their order.
pub fn define_written(s: &mut TypeStore, own: u32, types: &TypedKids) -> Result<(), AllocError>
    ensures ok { OnOk result (DefinesOneMore s.old s.new own (written_id (tree_from_front 0 types.now))) }
    ensures err { OnErr result (s.new ≡ s.old) }
{
    let _law = s.declarations();
    let t = written_at(types, 0)?;
    let Some(sized) = s.sized(own) else {
        return Err(AllocError);
    };
    if s.definition(own).is_some() || measured(s, t) != Some(sized) {
        return Err(AllocError);
    }
    s.define(own, t);
    Ok(())
}
