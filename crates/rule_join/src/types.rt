//! The types of nodes that meet their own rows.

ghost use Rattle.std.specs.Prelude.{◌≡◌, true, None, Some, IfOk};
ghost use Rattle.hare_types.specs.Store.{Store};
ghost use Rattle.hare_types.specs.Later.{IsLater};
ghost use Rattle.hare_rules.specs.Control as control;
ghost use Rattle.hare_rules.specs.Joined as joined;
ghost use Rattle.hare_rules.specs.Types.{type_of};
ghost use Rattle.hare_rules.specs.Words as words;
ghost use Rattle.rule_judge.specs.Asked.{own_failing};
ghost use Rattle.rule_judge.specs.Defined.{IsDefinedTy};
ghost use Rattle.rule_judge.specs.Grown.{IsGrown};
ghost use Rattle.rule_judge.specs.Turns.{context_in, kind_in, IsTurn};
ghost use Rattle.rule_join.specs.Kinds.{judges, is_block};
ghost use Rattle.rule_join.specs.Needs.{IsReady};
ghost use Rattle.rule_join.specs.Together.{together};
ghost use Rattle.rule_join.specs.declared.values.Source.TheVariants as source;

use crate::joins::joined_type;
use crate::loops::is_endless;
use crate::values::Source;
use hare_tree::Kind;
use hare_types::{Scalar, Ty, TypeStore};
use rule_judge::{Turn, is_open, is_there, word};
use std::alloc::AllocError;

/// The type that is written by one word.
fn word_type(s: &mut TypeStore, k: Scalar) -> Result<Ty, AllocError>
    ensures value { IfOk result (λ a. (f : Store) → IsLater s.new f → words.typed_as (words.word_id f k) ≡ Some a) }
    ensures defined { IfOk result (IsDefinedTy s.new) }
    ensures grown { IsGrown s.old s.new }
{
    let made = word(s, k)?;
    Ok(Ty::Of(made))
}

/// The type of what comes together, where the first value that goes on has a default or none is asked for.
pub(crate) fn type_together(s: &mut TypeStore, v: Source, t: &Turn<'_>) -> Result<Ty, AllocError>
    requires turn { IsTurn s.old t.now }
    requires defaults { (f : Store) → IsLater s.old f → joined.first_lacking f t.now.case.now.hint (together v (context_in f t.now)) ≡
        None }
    ensures value { IfOk result (λ a. (f : Store) → IsLater s.new f →
        words.typed_as (joined.joined f t.now.case.now.hint (together v (context_in f t.now))) ≡ Some a) }
    ensures defined { IfOk result (IsDefinedTy s.new) }
    ensures grown { IsGrown s.old s.new }
{
    let _law = s.declarations();
    let joined = joined_type(s, v, t)?;
    match joined {
        Some(made) => Ok(Ty::Of(made)),
        None => unreachable!(),
    }
}

/// The type of an `if`: what its branches join to, and void without an `else`.
fn if_type(s: &mut TypeStore, t: &Turn<'_>) -> Result<Ty, AllocError>
    requires turn { IsTurn s.old t.now }
    requires defaults { (f : Store) → IsLater s.old f → joined.first_lacking f t.now.case.now.hint
        (together source.Branches (context_in f t.now)) ≡ None }
    ensures value { IfOk result (λ a. (f : Store) → IsLater s.new f → control.if_type (context_in f t.now) ≡ Some a) }
    ensures defined { IfOk result (IsDefinedTy s.new) }
    ensures grown { IsGrown s.old s.new }
{
    let _law = s.declarations();
    if is_there(t.kids, 2) {
        let joined = type_together(s, Source::Branches, t)?;
        return Ok(joined);
    }
    let void = word_type(s, Scalar::Void)?;
    Ok(void)
}

/// The type of a `for`: never where it is endless, and void else.
fn for_type(s: &mut TypeStore, t: &Turn<'_>) -> Result<Ty, AllocError>
    ensures value { IfOk result (λ a. (f : Store) → IsLater s.new f → control.for_type (context_in f t.now) ≡ Some a) }
    ensures defined { IfOk result (IsDefinedTy s.new) }
    ensures grown { IsGrown s.old s.new }
{
    if is_endless(t) {
        let never = word_type(s, Scalar::Never)?;
        return Ok(never);
    }
    let void = word_type(s, Scalar::Void)?;
    Ok(void)
}

/// Whether a node is a block or a case.
fn is_block(k: Kind) -> bool
    ensures { result ≡ is_block k }
{
    matches!(k, Kind::Block | Kind::Case | Kind::SwitchCase)
}

/// The type of a block or a case: what was yielded to it and its end join to; where nothing was, void where its end is reached, and never
/// where it is not.
fn block_type(s: &mut TypeStore, t: &Turn<'_>) -> Result<Ty, AllocError>
    requires turn { IsTurn s.old t.now }
    requires defaults { (f : Store) → IsLater s.old f → joined.first_lacking f t.now.case.now.hint
        (together source.Yields (context_in f t.now)) ≡ None }
    ensures value { IfOk result (λ a. (f : Store) → IsLater s.new f → control.block_type (context_in f t.now) ≡ Some a) }
    ensures defined { IfOk result (IsDefinedTy s.new) }
    ensures grown { IsGrown s.old s.new }
{
    let _law = s.declarations();
    let case = t.case;
    if !case.yields.is_empty() {
        let joined = type_together(s, Source::Yields, t)?;
        return Ok(joined);
    }
    if is_open(s, t) {
        let void = word_type(s, Scalar::Void)?;
        return Ok(void);
    }
    let never = word_type(s, Scalar::Never)?;
    Ok(never)
}

/// The type of what the node gives, which meets its own rows.
pub(crate) fn own_type(s: &mut TypeStore, t: &Turn<'_>) -> Result<Ty, AllocError>
    requires kind { judges (kind_in t.now) ≡ true }
    requires turn { IsTurn s.old t.now }
    requires needs { IsReady s.old t.now }
    requires rows { (f : Store) → IsLater s.old f → own_failing (context_in f t.now) ≡ None }
    ensures value { IfOk result (λ a. (f : Store) → IsLater s.new f → type_of (context_in f t.now) ≡ Some a) }
    ensures defined { IfOk result (IsDefinedTy s.new) }
    ensures grown { IsGrown s.old s.new }
{
    let _law = s.declarations();
    let node = t.node;
    if is_block(node.kind) {
        let a = block_type(s, t)?;
        return Ok(a);
    }
    match node.kind {
        Kind::If => {
            let a = if_type(s, t)?;
            Ok(a)
        }
        Kind::For => {
            let a = for_type(s, t)?;
            Ok(a)
        }
        _ => {
            let a = word_type(s, Scalar::Void)?;
            Ok(a)
        }
    }
}
