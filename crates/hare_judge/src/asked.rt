//! Which kids were asked for a type.

ghost use Rattle.std.specs.Prelude.{◌≡◌, true, IfOk};
ghost use Rattle.hare_types.specs.Store.{Store};
ghost use Rattle.hare_types.specs.Later.{IsLater};
ghost use Rattle.hare_rules.specs.Above as above;
ghost use Rattle.hare_rules.specs.Judged as judged;
ghost use Rattle.rule_judge.specs.Asked as asked;
ghost use Rattle.rule_judge.specs.Grown.{IsGrown};
ghost use Rattle.rule_judge.specs.Turns.{context_in, kind_in};
ghost use Rattle.hare_judge.specs.Kinds.{has_cases, is_judged_kind};
ghost use Rattle.hare_judge.specs.Needs.{IsReadyTurn};

use crate::kinds::{Judge, judge_of};
use hare_tree::Kind;
use hare_types::TypeStore;
use rule_judge::{Turn, kind_at};
use std::alloc::{AllocError, Global};

/// Whether a part of this kind is no expression and no statement: nothing is asked of it.
fn is_bare_part(k: Kind) -> bool
    ensures { result ≡ above.is_bare_part k }
{
    matches!(
        k,
        Kind::None
            | Kind::TrailingComma
            | Kind::Dots
            | Kind::Message
            | Kind::ByRef
            | Kind::Name
            | Kind::Export
            | Kind::Params
            | Kind::Param
            | Kind::StructField
            | Kind::Spread
            | Kind::Binding
            | Kind::PatternLet
            | Kind::PatternNull
            | Kind::TypeScalar
            | Kind::TypePath
            | Kind::TypePointer
            | Kind::TypeNullable
            | Kind::TypeSlice
            | Kind::TypeArray
            | Kind::TypeStruct
            | Kind::TypeTuple
            | Kind::TypeUnion
            | Kind::TypeError
    )
}

/// Whether a `match` or a `switch` asks its kid number `i` for a type.
fn asks_case(t: &Turn<'_>, i: usize) -> bool
    requires { has_cases (kind_in t.now) ≡ true }
    ensures { (f : Store) → result ≡ asked.asks_type (context_in f t.now) i }
{
    rule_join::asks_case(t, i)
}

/// Whether the node itself asks its kid number `i` for a type, where that is an expression or a statement.
fn asks_type(alloc: Global, s: &mut TypeStore, t: &Turn<'_>, i: usize) -> Result<bool, AllocError>
    requires kind { is_judged_kind (kind_in t.now) ≡ true }
    requires ready { IsReadyTurn s.old t.now }
    ensures value { IfOk result (λ b. (f : Store) → IsLater s.new f → b ≡ asked.asks_type (context_in f t.now) i) }
    ensures grown { IsGrown s.old s.new }
{
    let _law = s.declarations();
    let node = t.node;
    match judge_of(node.kind) {
        Some(Judge::Operators) => rule_ops::asks_type(s, t, i),
        Some(Judge::Memory) => rule_mem::asks_type(s, t, i),
        Some(Judge::Control) => rule_ctl::asks_type(alloc, s, t, i),
        Some(Judge::Joining) => rule_join::asks_type(s, t, i),
        Some(Judge::Matching) => Ok(asks_case(t, i)),
        Some(Judge::Switching) => Ok(asks_case(t, i)),
        None => unreachable!(),
    }
}

/// Whether kid number `i` was asked for a type, or hands one on: then the verdict lists no coercion for it. The store may grow in types.
///
/// The conditions are those of `judge`. Fails for want of memory alone.
pub fn was_hinted(
    alloc: Global,
    s: &mut TypeStore,
    t: &Turn<'_>,
    i: usize,
) -> Result<bool, AllocError>
    requires kind { is_judged_kind (kind_in t.now) ≡ true }
    requires ready { IsReadyTurn s.old t.now }
    ensures value { IfOk result (λ b. (f : Store) → IsLater s.new f → b ≡ judged.was_hinted (context_in f t.now) i) }
    ensures grown { IsGrown s.old s.new }
{
    let _law = s.declarations();
    let kind = kind_at(t.kids, i);
    if kind == Kind::Values {
        return Ok(true);
    }
    if is_bare_part(kind) {
        return Ok(false);
    }
    asks_type(alloc, s, t, i)
}
