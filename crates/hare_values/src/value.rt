//! The value of a def or a global.

ghost use Rattle.std.specs.Prelude.{◌≡◌, true, map, IsTrue, IfOk, IfErr};
ghost use Rattle.hare_tree.specs.declared.form.Sort.TheVariants as sorts;
ghost use Rattle.hare_tree.specs.Node.{head};
ghost use Rattle.hare_tree.specs.Shape.{is_shaped};
ghost use Rattle.hare_types.specs.Sound.{IsStore};
ghost use Rattle.hare_typed.specs.Erased.{erase};
ghost use Rattle.hare_rules.specs.Context.{own_type};
ghost use Rattle.hare_whole.specs.Listing.{written_types};
ghost use Rattle.hare_steps.specs.Plans.{listing, ArePlaces};
ghost use Rattle.hare_turns.specs.Stages.{IsValueOf};
ghost use Rattle.hare_defined.specs.Known.{AreDefined};
ghost use Rattle.hare_readable.specs.Taken.{AreTaken};
ghost use Rattle.hare_walk.specs.Grown.{IsGrown};
ghost use Rattle.rule_judge.specs.Defined.{IsDefinedTy};
ghost use Rattle.rule_ctl.specs.Declaring.{declares};
ghost use Rattle.hare_values.specs.Values.{IsValueStop};

use crate::asked::hint_by;
use crate::judging::can_judge;
use crate::typing::typed_value;
use hare_bindings::judge_binding;
use hare_defined::{Defined, law_defined_types_stay};
use hare_names::Names;
use hare_steps::DeclPlace;
use hare_tree::{Fault, FileTree, Stop, Tree};
use hare_typed::{Typed, TypedKids};
use hare_types::TypeStore;
use hx_base::Items;
use rule_judge::DeclTypes;
use std::alloc::Global;

/// What is known of a program while the value of a declaration is judged.
#[derive(Clone, Copy)]
pub struct Program<'a> {
    /// What its paths mean.
    pub names: &'a Names,
    /// Its files.
    pub files: &'a Items<FileTree>,
    /// Where its declarations stand, by their numbers.
    pub places: &'a [DeclPlace],
    /// What is known of its declarations.
    pub known: &'a DeclTypes,
}

/// The typed tree of the value of declaration `own`, a def or a global whose written type, where there is one, has been judged; the
/// declaration then meets its rows. Or the first fault of the value, or where it has none that of the declaration. `ready` is that part of
/// what is known of which all types are defined; what the value names is put there.
///
/// The conditions are that `decl` is a def or a global and shaped as a declaration; that `types` are trees of its written types; that the
/// places are those of the files; and that all types in `defined`, and all types of what is ready, mention only names that are defined.
///
/// A value that names a declaration of the program which is not known, or one of which a type mentions a name that is not defined, is
/// answered as want of memory; so is a written type that mentions such a name, all where `rt::nomem` is not defined, and what `check_value`
/// and `judge_binding` answer so. The time is that of the value and of what it names for the first time.
pub fn judge_value(
    alloc: Global,
    s: &mut TypeStore,
    defined: &mut Defined,
    ready: &mut DeclTypes,
    program: Program<'_>,
    own: u32,
    decl: &Tree,
    types: &TypedKids,
) -> Result<Typed, Stop<Fault>>
    requires kind { declares (head decl.now).kind ≡ true }
    requires shaped { IsTrue (is_shaped sorts.Decl decl.now) }
    requires types { map erase types.now ≡ map (λ r. r.1) (written_types decl.now) }
    requires places { ArePlaces program.files.now program.places.now }
    requires defined { AreDefined s.old defined.old }
    requires taken { AreTaken s.old program.known.now ready.old }
    ensures ok { IfOk result (IsValueOf (listing program.entry.names.now program.entry.files.now) program.entry.known.now s.new own decl.now
        types.now) }
    ensures typed { IfOk result (λ v. IsDefinedTy s.new (own_type v)) }
    ensures err { IfErr result (IsValueStop (listing program.entry.names.now program.entry.files.now) program.entry.known.now s.new own
        decl.now types.now) }
    ensures defined { AreDefined s.new defined.new }
    ensures taken { AreTaken s.new program.entry.known.now ready.new }
    ensures grown { IsGrown s.old s.new }
    ensures sound { IsStore s.new }
{
    let _law = s.declarations();
    law_defined_types_stay();
    let Some(value) = decl.kids.get(3) else {
        return Err(Stop::Memory);
    };
    let hint = hint_by(types);
    if !can_judge(alloc, s, defined, ready, &program, &hint, value)? {
        return Err(Stop::Memory);
    }
    let typed = typed_value(alloc, s, &program, ready, own, hint, value)?;
    judge_binding(alloc, s, defined, own, decl, types, &typed)?;
    Ok(typed)
}
