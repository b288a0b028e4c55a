//! A node that is judged.

ghost use Rattle.std.specs.Prelude.{◌≡◌, map};
ghost use Rattle.hare_tree.specs.Node.{kids_of, nodes_of};
ghost use Rattle.hare_typed.specs.Erased.{erase};
ghost use Rattle.judge_table.specs.Shaped.{IsShaped};

use crate::marks::typed_kids;
use crate::meanings::{meaning, path_meaning};
use crate::ready::is_ready;
use crate::told::Told;
use crate::verdict::{accepted, refused};
use anyhow::{Result, bail};
use hare_judge::judge;
use hare_tree::{Stop, Tree};
use hare_typed::TypedKids;
use rule_judge::Turn;
use spelled_types::Table;

/// What the judge of its kind answers of a node, where this is told of it.
pub(crate) fn judged(table: &mut Table, told: &mut Told, node: &Tree) -> Result<String>
    requires { IsShaped node.now }
{
    let kids = typed_kids(table, told, node.kind, &node.kids)?;
    judged_over(table, told, node, &kids)
}

/// The same of a shaped node with these kids.
fn judged_over(table: &mut Table, told: &mut Told, node: &Tree, kids: &TypedKids) -> Result<String>
    requires shaped { IsShaped node.now }
    requires kids { nodes_of (map erase kids.now) ≡ kids_of node.now }
{
    let own = meaning(table, told, node)?;
    told.case.meaning = path_meaning(own, node.kind, kids);
    let t = Turn {
        decls: &told.decls,
        locals: &told.locals,
        case: &told.case,
        node,
        kids,
    };
    asked(table, &t)
}

/// The answer of the judge of a node, where what is told of it is what a judge relies on. The node is shaped, and these are its kids.
fn asked(table: &mut Table, t: &Turn<'_>) -> Result<String>
    requires shaped { IsShaped t.now.node.now }
    requires kids { nodes_of (map erase t.now.kids.now) ≡ kids_of t.now.node.now }
{
    let alloc = table.alloc;
    if !is_ready(alloc, &table.store, t)? {
        bail!("nothing that a judge is told");
    }
    match judge(alloc, &mut table.store, t) {
        Ok(verdict) => accepted(table, &verdict),
        Err(Stop::Fault(fault)) => refused(table, fault),
        Err(Stop::Memory) => bail!("out of memory"),
    }
}
