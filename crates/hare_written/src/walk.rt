//! The walk over a written type: kids from left to right, then the part.

ghost use Rattle.std.specs.Prelude.{◌≡◌, ◌+◌, true, length, IfOk, IfErr};
ghost use Rattle.hare_tree.specs.Node.{head, kids_of, nodes_of};
ghost use Rattle.hare_typed.specs.Order.{check_order};
ghost use Rattle.hare_walk.specs.Grown.{IsGrown};
ghost use Rattle.hare_walk.specs.Walks.{IsPart};
ghost use Rattle.hare_written.specs.Judged.{IsJudged, IsStopped, AreAllJudged, AreStopped};
ghost use Rattle.hare_written.specs.Nodes as nodes;
ghost use Rattle.hare_written.specs.Nodes.{nodes_in};
ghost use Rattle.hare_written.specs.Program.{program_of, AreDefsDefined};
ghost use Rattle.hare_written.specs.Roles.{role_in};

use crate::env::Env;
use crate::kinds::is_written;
use crate::roles::{Role, role_of_kid};
use crate::turn::turn;
use hare_seen::law_bytes_follow_definitions;
use hare_tree::{Fault, Kids, Stop, Tree};
use hare_typed::{Typed, TypedKids};
use hare_types::TypeStore;
use std::alloc::AllocError;

/// One more than a number; a number that is too large is answered as want of memory.
fn one_more(n: u32) -> Result<u32, AllocError>
    ensures { IfOk result (λ m. m ≡ n + 1) }
{
    match n.checked_add(1) {
        Some(m) => Ok(m),
        None => Err(AllocError),
    }
}

/// The tree of a part of a written type, behind so many nodes, which are counted on; or the first fault in it.
#[cycle(judge)]
pub(crate) fn judge_tree(
    env: &Env<'_>,
    s: &mut TypeStore,
    t: &Tree,
    role: Role,
    count: &mut u32,
) -> Result<Typed, Stop<Fault>>
    requires part { IsPart t.now }
    requires defs { AreDefsDefined s.old env.now.decls.now }
    ensures ok { IfOk result (IsJudged (program_of env.now) s.new (role_in role) t.now count.old) }
    ensures count { IfOk result (λ x. count.new ≡ count.old + length (check_order x)) }
    ensures err { IfErr result (IsStopped (program_of env.now) s.new (role_in role) t.now count.old) }
    ensures grown { IsGrown s.old s.new }
{
    law_bytes_follow_definitions();
    let _law = s.declarations();
    if !is_written(t.kind) {
        return Err(Stop::Memory);
    }
    let kids = judge_kids(env, s, t, &t.kids, count)?;
    let _sound = s.declarations();
    let number = *count;
    *count = one_more(number)?;
    let judged = turn(env, s, t, kids, role, number);
    let _still = s.declarations();
    let tree = judged?;
    Ok(tree)
}

/// The trees of the kids of such a part, or the first fault in them.
#[cycle(judge)]
fn judge_kids(
    env: &Env<'_>,
    s: &mut TypeStore,
    node: &Tree,
    kids: &Kids,
    count: &mut u32,
) -> Result<TypedKids, Stop<Fault>>
    requires kind { nodes.is_written (head node.now).kind ≡ true }
    requires part { IsPart node.now }
    requires whole { kids_of node.now ≡ nodes_of kids.now }
    requires defs { AreDefsDefined s.old env.now.decls.now }
    ensures ok { IfOk result (AreAllJudged (program_of env.now) s.new node.now count.old) }
    ensures count { IfOk result (λ xs. count.new ≡ count.old + length (nodes_in xs)) }
    ensures err { IfErr result (AreStopped (program_of env.now) s.new node.now count.old) }
    ensures grown { IsGrown s.old s.new }
{
    law_bytes_follow_definitions();
    let _law = s.declarations();
    let mut done = TypedKids::with_room(env.alloc, kids.len());
    for i in 0..kids.len() {
        let Some(kid) = kids.get(i) else {
            unreachable!();
        };
        let _sound = s.declarations();
        let judged = judge_tree(env, s, kid, role_of_kid(node.kind, i), count);
        let _still = s.declarations();
        let x = judged?;
        done.push(x)?;
    }
    Ok(done)
}
