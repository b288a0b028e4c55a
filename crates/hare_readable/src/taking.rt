//! How one declaration that is known becomes ready.

ghost use Rattle.std.specs.Prelude.{◌≡◌, IsTrue, IfOk};
ghost use Rattle.hare_rules.specs.Flow as flow;
ghost use Rattle.hare_defined.specs.Known.{AreDefined};
ghost use Rattle.hare_turns.specs.Stages.{known_of};
ghost use Rattle.hare_readable.specs.Taken.{AreTaken};
ghost use Rattle.hare_readable.specs.Taking.{TakesMore, IsEnoughAt};

use hare_copies::copy_known;
use hare_defined::Defined;
use hare_names::Names;
use hare_ready::is_ready;
use hare_tree::{Kind, Meaning, Place};
use hare_types::TypeStore;
use rule_judge::DeclTypes;
use std::alloc::{AllocError, Global};

/// Whether a node is a path, of an expression or of a type.
fn is_path(kind: Kind) -> bool
    ensures { result ≡ flow.is_path_kind kind }
{
    matches!(kind, Kind::Path | Kind::TypePath)
}

/// Puts what is known of a declaration among what is ready, where it is not there yet, and answers whether it can stand there. A
/// declaration of which nothing is known is left out.
fn take_declaration(
    alloc: Global,
    s: &TypeStore,
    defined: &mut Defined,
    known: &DeclTypes,
    ready: &mut DeclTypes,
    number: u32,
) -> Result<bool, AllocError>
    requires defined { AreDefined s.now defined.old }
    requires taken { AreTaken s.now known.now ready.old }
    ensures value { IfOk result (λ b. IsTrue b → known_of ready.new number ≡ known_of known.now number) }
    ensures defined { AreDefined s.now defined.new }
    ensures more { TakesMore s.now known.now ready.old ready.new }
{
    if ready.find(number).is_some() {
        return Ok(true);
    }
    let Some(d) = known.find(number) else {
        return Ok(true);
    };
    if !is_ready(s, defined, d)? {
        return Ok(false);
    }
    let copy = copy_known(alloc, d)?;
    ready.push(copy)?;
    Ok(true)
}

/// Does so with the declaration that a node of this kind at this place means, where it is a path.
pub(crate) fn take_at(
    alloc: Global,
    s: &TypeStore,
    defined: &mut Defined,
    names: &Names,
    known: &DeclTypes,
    ready: &mut DeclTypes,
    kind: Kind,
    place: Place,
) -> Result<bool, AllocError>
    requires defined { AreDefined s.now defined.old }
    requires taken { AreTaken s.now known.now ready.old }
    ensures value { IfOk result (λ b. IsTrue b → IsEnoughAt names.now known.now ready.new kind place) }
    ensures defined { AreDefined s.now defined.new }
    ensures more { TakesMore s.now known.now ready.old ready.new }
{
    if !is_path(kind) {
        return Ok(true);
    }
    let Meaning::Decl(number) = names.meaning(place) else {
        return Ok(true);
    };
    take_declaration(alloc, s, defined, known, ready, number)
}
