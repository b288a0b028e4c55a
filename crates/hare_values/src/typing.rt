//! The typed tree of a value.

ghost use Rattle.std.specs.Prelude.{◌≡◌, IsTrue, IfOk, IfErr};
ghost use Rattle.hare_tree.specs.Shape.{is_shaped};
ghost use Rattle.hare_types.specs.Sound.{IsStore};
ghost use Rattle.hare_rules.specs.Finished.{expression};
ghost use Rattle.hare_walk.specs.Grown.{IsGrown};
ghost use Rattle.hare_values.specs.Judging.{listing_of, CanJudge, IsTreeOf, IsStopOf};

use crate::value::Program;
use hare_agree::law_values_are_enough;
use hare_check::{Env, check_value};
use hare_rules::Hint;
use hare_tree::{Fault, Stop, Tree};
use hare_typed::Typed;
use hare_types::TypeStore;
use rule_judge::DeclTypes;
use std::alloc::Global;

/// The typed tree of this value of declaration `own`, which is asked for this, or its first fault. It is judged by what is ready, and by
/// all that is known the answer is the same.
pub(crate) fn typed_value(
    alloc: Global,
    s: &mut TypeStore,
    program: &Program<'_>,
    ready: &DeclTypes,
    own: u32,
    hint: Hint,
    value: &Tree,
) -> Result<Typed, Stop<Fault>>
    requires shaped { IsTrue (is_shaped expression value.now) }
    requires can { CanJudge (listing_of program.now) program.now.known.now ready.now s.old hint value.now }
    ensures ok { IfOk result (IsTreeOf (listing_of program.now) program.now.known.now s.new own hint value.now) }
    ensures err { IfErr result (IsStopOf (listing_of program.now) program.now.known.now s.new own hint value.now) }
    ensures grown { IsGrown s.old s.new }
    ensures sound { IsStore s.new }
{
    law_values_are_enough();
    let env = Env {
        names: program.names,
        decls: ready,
        own,
    };
    check_value(alloc, s, &env, hint, value)
}
