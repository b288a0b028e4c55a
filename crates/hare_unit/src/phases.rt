//! The phases from names to bodies.

ghost use Rattle.std.specs.Prelude.{ℕ, List, IfOk, IfErr};
ghost use Rattle.hare_filed.specs.Filed.{AreFiled};
ghost use Rattle.hare_saids.specs.Saids.{decls};
ghost use Rattle.hare_unit.specs.Programs.{IsTypedBy, IsPhaseStop};

use crate::finished::finish_all;
use hare_bodies::judge_bodies;
use hare_declarations::judge_declarations;
use hare_declare::declare_all;
use hare_joined::law_finished_are_typed;
use hare_sources::Named;
use hare_steps::plan;
use hare_tree::{Fault, Stop};
use hare_turns::{law_bodies_stop, law_ends_are_seen, law_stages_stay};
use hare_typed::TypedKids;
use hare_types::TypeStore;
use std::alloc::Global;

/// The typed declarations of a program, over its types.
#[derive(Drop)]
pub(crate) struct Typing {
    pub(crate) types: TypeStore,
    pub(crate) decls: TypedKids,
}

/// The typed declarations of a program whose names are sound; or the first fault of circles, of declarations or of bodies.
pub(crate) fn judge(alloc: Global, named: &Named) -> Result<Typing, Stop<Fault>>
    requires filed { (paths : List (List ℕ)) × AreFiled paths (decls named.now.files) }
    ensures ok { IfOk result (IsTypedBy named.now) }
    ensures err { IfErr result (IsPhaseStop named.now) }
{
    law_finished_are_typed();
    law_bodies_stop();
    law_stages_stay();
    law_ends_are_seen();
    let plan = plan(alloc, &named.names, &named.files)?;
    let mut types = TypeStore::new(alloc);
    declare_all(alloc, &mut types, &named.names, &named.files)?;
    let judged = judge_declarations(alloc, &mut types, &named.names, &named.files, &plan)?;
    let bodies = judge_bodies(
        alloc,
        &mut types,
        &named.names,
        &named.files,
        plan.places.as_slice(),
        &judged.known,
    )?;
    let decls = finish_all(
        alloc,
        &mut types,
        &named.files,
        plan.places.as_slice(),
        judged.parts,
        bodies,
    )?;
    Ok(Typing { types, decls })
}
