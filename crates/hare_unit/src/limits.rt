//! The last phase: the list of tags, and the limits of a program.

ghost use Rattle.std.specs.Prelude.{IfOk, IfErr};
ghost use Rattle.hare_unit.specs.Programs.{IsTypedBy, IsEnded, IsLimitStop};

use crate::phases::Typing;
use hare_bytes::bytes_of_globals;
use hare_limits::first_limit;
use hare_sources::Named;
use hare_tags::list_tags;
use hare_tree::{Fault, Stop};
use hx_base::Text;
use std::alloc::Global;

/// The number of the function with which a program of these paths begins, all of whose declarations and bodies have been judged, where it
/// is within all limits; or the first fault of limits. The list of the types that have tags is made anew.
pub(crate) fn entry_of(
    alloc: Global,
    paths: &[Text],
    named: &Named,
    typing: &mut Typing,
) -> Result<u32, Stop<Fault>>
    requires typed { IsTypedBy named.now typing.old }
    ensures ok { IfOk result (IsEnded paths.now named.now typing.new) }
    ensures err { IfErr result (IsLimitStop paths.now named.now) }
{
    let _ = named;
    list_tags(alloc, &mut typing.types, &typing.decls)?;
    let _sound = typing.types.declarations();
    let bytes = bytes_of_globals(alloc, &typing.types, &typing.decls)?;
    let number = first_limit(alloc, paths, &typing.types, &typing.decls, bytes.as_slice())?;
    match u32::try_from(number) {
        Ok(entry) => Ok(entry),
        Err(_) => Err(Stop::Memory),
    }
}
