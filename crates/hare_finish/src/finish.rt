//! The finished tree of a declaration.

ghost use Rattle.std.specs.Prelude.{IsTrue, IfOk};
ghost use Rattle.hare_tree.specs.declared.form.Sort.TheVariants as sorts;
ghost use Rattle.hare_tree.specs.Shape.{is_shaped};
ghost use Rattle.hare_types.specs.Sound.{IsStore};
ghost use Rattle.hare_defined.specs.Known.{AreDefined};
ghost use Rattle.hare_walk.specs.Grown.{IsGrown};
ghost use Rattle.hare_finish.specs.Finished.{IsFinished};
ghost use Rattle.hare_finish.specs.Made.{IsVoid};

use crate::bindings::finish_binding;
use crate::functions::finish_function;
use crate::types::finish_type;
use hare_defined::Defined;
use hare_tree::{Kind, Tree};
use hare_typed::{Typed, TypedKids};
use hare_types::{Scalar, TypeId, TypeStore};
use rule_judge::word;
use std::alloc::{AllocError, Global};

/// The id of void. What is known to be defined stays so.
fn void_in(s: &mut TypeStore, defined: &Defined) -> Result<TypeId, AllocError>
    requires { AreDefined s.old defined.now }
    ensures void { IfOk result (IsVoid s.new) }
    ensures known { AreDefined s.new defined.now }
    ensures grown { IsGrown s.old s.new }
    ensures sound { IsStore s.new }
{
    let _law = s.declarations();
    word(s, Scalar::Void)
}

/// The finished tree of a declaration, whose parts have been judged: its written types, the value of a def or a global, the body of a
/// function. The nodes of types have no numbers in it, parameters are numbered behind the nodes of the body, and the value goes to the
/// written type, or else to its default.
///
/// The declaration is shaped as one, and all types in `defined` mention only names that are defined. Nothing is claimed of a tree from
/// parts that are not those of the declaration. A part that is missing, another number of types, numbers of nodes from 2^32 on, and a type
/// of a value that mentions a name which is not defined, are answered as want of memory. The time is that of the parts.
pub fn finish_declaration(
    alloc: Global,
    s: &mut TypeStore,
    defined: &mut Defined,
    decl: &Tree,
    types: &TypedKids,
    value: Option<Typed>,
    body: Option<Typed>,
) -> Result<Typed, AllocError>
    requires shaped { IsTrue (is_shaped sorts.Decl decl.now) }
    requires defined { AreDefined s.old defined.old }
    ensures ok { IfOk result (IsFinished s.new decl.now types.now value body) }
    ensures defined { AreDefined s.new defined.new }
    ensures grown { IsGrown s.old s.new }
    ensures sound { IsStore s.new }
{
    let void = void_in(s, defined)?;
    match decl.kind {
        Kind::TypeDecl => finish_type(alloc, void, decl, types),
        Kind::Fn => {
            let Some(body) = body else {
                return Err(AllocError);
            };
            finish_function(alloc, void, decl, types, body)
        }
        _ => {
            let Some(value) = value else {
                return Err(AllocError);
            };
            finish_binding(alloc, s, defined, void, decl, types, value)
        }
    }
}
