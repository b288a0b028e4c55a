//! Whether a value can be judged by what is ready.

ghost use Rattle.std.specs.Prelude.{◌≡◌, IsTrue, IfOk};
ghost use Rattle.hare_steps.specs.Plans.{ArePlaces};
ghost use Rattle.hare_defined.specs.Known.{AreDefined};
ghost use Rattle.hare_readable.specs.Taken.{AreTaken};
ghost use Rattle.hare_values.specs.Judging.{listing_of, CanJudge};

use crate::asked::is_defined;
use crate::value::Program;
use hare_defined::Defined;
use hare_readable::{is_readable, make_ready};
use hare_ready::is_named;
use hare_rules::Hint;
use hare_tree::Tree;
use hare_types::TypeStore;
use rule_judge::DeclTypes;
use std::alloc::{AllocError, Global};

/// The number of the type of `rt` that says that memory was refused.
const NOMEM: u32 = 4_294_967_295;

/// Whether this value can be judged by what is ready of declarations, where it is asked for this. What the value names is put there.
pub(crate) fn can_judge(
    alloc: Global,
    s: &TypeStore,
    defined: &mut Defined,
    ready: &mut DeclTypes,
    program: &Program<'_>,
    hint: &Hint,
    value: &Tree,
) -> Result<bool, AllocError>
    requires places { ArePlaces program.now.files.now program.now.places.now }
    requires defined { AreDefined s.now defined.old }
    requires taken { AreTaken s.now program.now.known.now ready.old }
    ensures value { IfOk result (λ b. IsTrue b → CanJudge (listing_of program.now) program.now.known.now ready.new s.now hint.now
        value.now) }
    ensures defined { AreDefined s.now defined.new }
    ensures taken { AreTaken s.now program.now.known.now ready.new }
{
    let names = program.names;
    let known = program.known;
    if !is_readable(names, known, program.files, program.places, value) {
        return Ok(false);
    }
    if !make_ready(alloc, s, defined, names, known, ready, value)? {
        return Ok(false);
    }
    if !is_named(s, defined, NOMEM)? {
        return Ok(false);
    }
    is_defined(s, defined, hint)
}
