//! The written types of a declaration.

ghost use Rattle.std.specs.Prelude.{IsTrue, IfOk, IfErr, [], ◌∷◌};
ghost use Rattle.hare_tree.specs.declared.form.Sort.TheVariants as sorts;
ghost use Rattle.hare_tree.specs.Shape.{is_shaped};
ghost use Rattle.hare_types.specs.Sound.{IsStore};
ghost use Rattle.hare_seen.specs.Sizes.{AllFit};
ghost use Rattle.hare_steps.specs.Plans.{listing, ArePlaces};
ghost use Rattle.hare_turns.specs.Types.{IsTypeOf};
ghost use Rattle.hare_walk.specs.Grown.{IsGrown};
ghost use Rattle.hare_written.specs.Program.{AreDefsDefined};
ghost use Rattle.hare_signatures.specs.Signatures.{IsSignature, IsSignatureStop};
ghost use Rattle.rule_types.specs.Contexts.{role_of};
ghost use Rattle.hare_signatures.specs.Listed.{IsTypeStop};

use crate::listed::{Written, written_types};
use hare_names::Names;
use hare_readable::is_readable;
use hare_steps::DeclPlace;
use hare_tree::{Fault, FileTree, Stop, Tree};
use hare_turns::{law_types_are_judged, law_types_begin};
use hare_typed::{Typed, TypedKids};
use hare_types::TypeStore;
use hare_written::judge_written;
use hx_base::Items;
use rule_judge::DeclTypes;
use std::alloc::Global;

/// What is known of a program while the types that are written in one of its declarations are judged.
#[derive(Clone, Copy)]
struct Env<'a> {
    alloc: Global,
    /// What its paths mean.
    names: &'a Names,
    /// What is known of its declarations.
    known: &'a DeclTypes,
    files: &'a Items<FileTree>,
    /// Where its declarations stand.
    places: &'a [DeclPlace],
    /// The number of the declaration.
    own: u32,
}

/// The typed trees of the types that are written in declaration `own`, in the order of the source: the type of a type, the types of a
/// function's parameters and its result, the type of a def or a global where it is written. Or the fault of the first that has one. Names
/// that stand in them need not be defined yet.
///
/// The conditions are that the declaration is shaped, that `places` are those of the declarations of these files, and that the type of each
/// def that is known is in the store, and mentions no name that is not defined. What `judge_written` answers as want of memory is so here,
/// and so are types of which a path means a declaration that is not known, or a type that is none.
pub fn judge_types(
    alloc: Global,
    s: &mut TypeStore,
    names: &Names,
    known: &DeclTypes,
    files: &Items<FileTree>,
    places: &[DeclPlace],
    own: u32,
    decl: &Tree,
) -> Result<TypedKids, Stop<Fault>>
    requires shaped { IsTrue (is_shaped sorts.Decl decl.now) }
    requires defs { AreDefsDefined s.old known.now }
    requires places { ArePlaces files.now places.now }
    ensures ok { IfOk result (IsSignature (listing names.now files.now) known.now s.new own decl.now) }
    ensures err { IfErr result (IsSignatureStop (listing names.now files.now) known.now s.new own decl.now) }
    ensures grown { IsGrown s.old s.new }
    ensures sound { IsStore s.new }
{
    law_types_begin();
    law_types_are_judged();
    let _law = s.declarations();
    let env = Env {
        alloc,
        names,
        known,
        files,
        places,
        own,
    };
    let written = written_types(alloc, decl)?;
    let mut types = TypedKids::with_room(alloc, written.len());
    for i in 0..written.len() {
        let Written { bound, tree } = written[i];
        let typed = judge_type(&env, s, bound, tree)?;
        types.push(typed)?;
    }
    Ok(types)
}

/// The typed tree of one of them, or its fault.
fn judge_type(env: &Env<'_>, s: &mut TypeStore, bound: bool, t: &Tree) -> Result<Typed, Stop<Fault>>
    requires shaped { IsTrue (is_shaped sorts.Type t.now) }
    requires defs { AreDefsDefined s.old env.now.known.now }
    requires places { ArePlaces env.now.files.now env.now.places.now }
    ensures ok { IfOk result (IsTypeOf (listing env.now.names.now env.now.files.now) env.now.known.now s.new env.now.own
        (role_of bound, t.now)) }
    ensures fits { IfOk result (λ x. AllFit s.new (x ∷ [])) }
    ensures err { IfErr result (IsTypeStop (listing env.now.names.now env.now.files.now) env.now.known.now s.new env.now.own
        (role_of bound, t.now)) }
    ensures grown { IsGrown s.old s.new }
    ensures sound { IsStore s.new }
{
    let judged = judge_written(env.alloc, s, env.names, env.known, env.own, bound, t);
    let _law = s.declarations();
    let typed = judged?;
    if !is_readable(env.names, env.known, env.files, env.places, t) {
        return Err(Stop::Memory);
    }
    Ok(typed)
}
