//! What is found of nodes of which nothing is asked.

ghost use Rattle.std.specs.Prelude.{◌≡◌, true, length, IfOk};
ghost use Rattle.hare_tree.specs.declared.kind.Kind.TheVariants as ki;
ghost use Rattle.hare_tree.specs.Node.{head};
ghost use Rattle.hare_types.specs.Store.{Store};
ghost use Rattle.hare_rules.specs.Context.{Setting};
ghost use Rattle.hare_rules.specs.Above.{Above};
ghost use Rattle.hare_rules.specs.Flow.{Flow};
ghost use Rattle.rule_judge.specs.Grown.{IsGrown};
ghost use Rattle.hare_find.specs.Findings.{IsFound, IsDefinedFinding};
ghost use Rattle.hare_find.specs.Plain as spec;
ghost use Rattle.hare_find.specs.Plain.{IsAtPlain, IsAtCallee};

use crate::finding::Finding;
use crate::unsettled::find_void;
use hare_rules::rows;
use hare_tree::{Kind, Tree};
use hare_typed::TypedKids;
use hare_types::TypeStore;
use std::alloc::{AllocError, Global};

/// Whether nothing is asked of a node of this kind: it is a part that is left out, a name, or what stands round other trees.
pub fn is_plain(k: Kind) -> bool
    ensures { result ≡ spec.is_plain k }
{
    rows(k).len() == 0
}

/// What is found of a node of which nothing is asked: its type is void, and it settles nothing. The store may grow in types. The node is of
/// a kind of which the table of rules has no row. Fails for want of memory alone.
pub fn find_plain(
    alloc: Global,
    s: &mut TypeStore,
    node: &Tree,
    kids: &TypedKids,
) -> Result<Finding, AllocError>
    requires { spec.is_plain (head node.now).kind ≡ true }
    ensures ok { IfOk result (λ x. (w : Store → Setting) (a : Above) (f : Flow) → IsAtPlain w a f kids.now →
        IsFound w s.new a (head node.now) kids.now f x) }
    ensures many { IfOk result (λ x. length x.kids ≡ length kids.now) }
    ensures defined { IfOk result (IsDefinedFinding s.new) }
    ensures grown { IsGrown s.old s.new }
{
    find_void(alloc, s, kids.len())
}

/// What is found of a path that is called: it has no value, so its type is void, and it settles nothing. The store may grow in types. The
/// node is a path. Fails for want of memory alone.
pub fn find_callee(
    alloc: Global,
    s: &mut TypeStore,
    node: &Tree,
    kids: &TypedKids,
) -> Result<Finding, AllocError>
    requires { (head node.now).kind ≡ ki.Path }
    ensures ok { IfOk result (λ x. (w : Store → Setting) (a : Above) (f : Flow) → IsAtCallee w a f kids.now →
        IsFound w s.new a (head node.now) kids.now f x) }
    ensures many { IfOk result (λ x. length x.kids ≡ length kids.now) }
    ensures defined { IfOk result (IsDefinedFinding s.new) }
    ensures grown { IsGrown s.old s.new }
{
    find_void(alloc, s, kids.len())
}
