//! Written types of declarations.

ghost use Rattle.std.specs.Prelude.{◌≡◌, ℕ, nat_eq, find, Some, IsTrue, IfOk, IfErr};
ghost use Rattle.hare_tree.specs.declared.form.Sort.TheVariants as so;
ghost use Rattle.hare_tree.specs.declared.kind.Kind.TheVariants as ki;
ghost use Rattle.hare_tree.specs.Shape.{is_shaped};
ghost use Rattle.hare_rules.specs.declared.declared.DeclType.{DeclType};
ghost use Rattle.hare_walk.specs.Grown.{IsGrown};
ghost use Rattle.rule_judge.specs.Defined.{IsDefined};
ghost use Rattle.rule_types.specs.Contexts.{role_of};
ghost use Rattle.hare_written.specs.Program.{program_over};
ghost use Rattle.hare_written.specs.Trees.{IsWrittenTree, IsWrittenStop};

use crate::env::Env;
use crate::roles::role_of_type;
use crate::walk::judge_tree;
use hare_names::Names;
use hare_tree::{Fault, Stop, Tree};
use hare_typed::Typed;
use hare_types::TypeStore;
use rule_judge::DeclTypes;
use std::alloc::Global;

/// The typed tree of a type that is written in declaration `own`, by the typing rules, or its fault: that of the first row that fails at
/// the first node, in check order, that fails. `bound` says that it is the type of a binding, which has to have a size. Nodes are numbered
/// in check order from
/// 0. The store may grow in names and types, also where there is a fault.
///
/// Names that stand in the type need not be defined yet. It may turn out to be too large once a name is defined that it holds by value: it
/// is well typed in each later store in which that has not come, and in each other one its fault is that of the first node that is too
/// large. A fault that is told here stays the first as long as no more is known of the bytes of types.
///
/// The conditions are that the tree is a shaped type, and that the type of each def that is known is in the store, and mentions no name
/// that is not defined. A type whose name is not declared, a type that is spread and whose base is not known, and a tree of more than
/// 2^32 - 1 nodes are answered as want of memory. The call goes as deep in the host as the type is.
pub fn judge_written(
    alloc: Global,
    s: &mut TypeStore,
    names: &Names,
    decls: &DeclTypes,
    own: u32,
    bound: bool,
    t: &Tree,
) -> Result<Typed, Stop<Fault>>
    requires shaped { IsTrue (is_shaped so.Type t.now) }
    requires defs { (n : ℕ) (d : DeclType) → find (λ e. nat_eq e.decl n) decls.now ≡ Some d → d.kind ≡ ki.Def → IsDefined s.old d.ty }
    ensures ok { IfOk result (IsWrittenTree (program_over names.now decls.now) s.new own (role_of bound) t.now) }
    ensures err { IfErr result (IsWrittenStop (program_over names.now decls.now) s.new own (role_of bound) t.now) }
    ensures grown { IsGrown s.old s.new }
{
    let env = Env {
        alloc,
        names,
        decls,
    };
    let mut count = 0;
    let tree = judge_tree(&env, s, t, role_of_type(bound), &mut count)?;
    Ok(tree)
}
