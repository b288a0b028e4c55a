//! How a written type is judged.

ghost use Rattle.std.specs.Prelude.{◌≡◌, true, IfOk, IfErr};
ghost use Rattle.hare_tree.specs.Levels.{is_type};
ghost use Rattle.rule_judge.specs.Defined.{IsDefined};
ghost use Rattle.rule_types.specs.Grown.{IsGrown};
ghost use Rattle.rule_types.specs.Known.{IsKnown, IsToldType, IsDefinedWritten};
ghost use Rattle.rule_types.specs.Contexts.{kind_in};
ghost use Rattle.rule_types.specs.Answers.{IsOwnType, IsOwnStop, IsWrittenType, IsStoppedType};

use crate::arrays::array;
use crate::fields::{structure, tuple};
use crate::inner::{error, nullable, pointer, slice};
use crate::reads::has_size;
use crate::scalars::{path, scalar};
use crate::unions::union_type;
use crate::written::{Written, stop};
use hare_rules::RowId;
use hare_tree::{Fault, Kind, Stop};
use hare_types::{TypeId, TypeStore};
use std::alloc::Global;

/// The type that the node writes, or the fault of the first of its rows but the last that it fails.
fn own_type(alloc: Global, s: &mut TypeStore, t: &Written<'_>) -> Result<TypeId, Stop<Fault>>
    requires kind { is_type (kind_in t.now) ≡ true }
    requires told { IsToldType s.old t.now }
    ensures ok { IfOk result (IsOwnType s.new t.now (kind_in t.now)) }
    ensures err { IfErr result (IsOwnStop s.new t.now (kind_in t.now)) }
    ensures defined { IfOk result (λ u. IsDefinedWritten s.old t.now → IsDefined s.new u) }
    ensures grown { IsGrown s.old s.new }
{
    let _law = s.declarations();
    let node = t.node;
    match node.kind {
        Kind::TypeScalar => {
            let u = scalar(s, t)?;
            Ok(u)
        }
        Kind::TypePath => {
            let u = path(s, t)?;
            Ok(u)
        }
        Kind::TypePointer => {
            let u = pointer(s, t)?;
            Ok(u)
        }
        Kind::TypeNullable => {
            let u = nullable(s, t)?;
            Ok(u)
        }
        Kind::TypeError => {
            let u = error(s, t)?;
            Ok(u)
        }
        Kind::TypeSlice => slice(s, t),
        Kind::TypeArray => array(s, t),
        Kind::TypeStruct => structure(alloc, s, t),
        Kind::TypeTuple => tuple(alloc, s, t),
        Kind::TypeUnion => union_type(alloc, s, t),
        _ => unreachable!(),
    }
}

/// Judges a written type: the type that it writes, or the fault of the first row of the table of typing rules that it fails. The answer is
/// that of every later store. The store may grow in names and types, also where there is a fault.
///
/// The node is a shaped type and has these kids, which have been judged. A path means a declaration, of which it is known whether its
/// values have a size; so much is known of what the parts write, and the base of a type that is spread as well; and the type of a length
/// mentions no name that is not defined.
///
/// What is not known yet of the bytes of the type is not looked at, so that a type may turn out to be too large once a name that it holds
/// by value is defined. It meets its rows in each later store in which it is small as far as its bytes are known; in each other one the row
/// that asks for it is the first that fails.
pub fn judge(alloc: Global, s: &mut TypeStore, t: &Written<'_>) -> Result<TypeId, Stop<Fault>>
    requires kind { is_type (kind_in t.now) ≡ true }
    requires told { IsToldType s.old t.now }
    ensures ok { IfOk result (IsWrittenType s.new t.now) }
    ensures err { IfErr result (IsStoppedType s.new t.now) }
    ensures known { IfOk result (IsKnown s.new) }
    ensures defined { IfOk result (λ u. IsDefinedWritten s.old t.now → IsDefined s.new u) }
    ensures grown { IsGrown s.old s.new }
{
    let _law = s.declarations();
    let found = own_type(alloc, s, t)?;
    if t.bound && !has_size(s, found) {
        let node = t.node;
        return Err(stop(RowId::Bound, node.place));
    }
    Ok(found)
}
