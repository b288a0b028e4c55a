//! The coercions that a verdict lists for kids.

ghost use Rattle.std.specs.Prelude.{◌≡◌, ◌+◌, ◌<◌, ◌≤◌, true, length, map, drop, [], ◌∷◌, ◌++◌, Some, None, IfOk, OnOk};
ghost use Rattle.hare_types.specs.Store.{Store};
ghost use Rattle.hare_types.specs.Later.{IsLater};
ghost use Rattle.rule_judge.specs.Answers.{IsJudged};
ghost use Rattle.rule_judge.specs.Grown.{IsGrown};
ghost use Rattle.rule_judge.specs.Turns.{context_in, kind_in, yields_in};
ghost use Rattle.hare_judge.specs.Kinds.{is_judged_kind};
ghost use Rattle.hare_judge.specs.Needs.{IsReadyTurn};
ghost use Rattle.rule_judge.specs.Asked as asked;
ghost use Rattle.hare_find.specs.Settling.{option_in};
ghost use Rattle.hare_find.specs.Listed.{listed_each, listed_behind, yields_listed};

use hare_judge::was_hinted;
use hare_rules::Verdict;
use hare_types::{Coercion, Ty, TypeStore};
use hx_base::Items;
use rule_judge::Turn;
use std::alloc::{AllocError, Global};

/// What is settled of one kid.
#[derive(Clone, Copy, Debug, PartialEq, Eq)]
pub struct Settling {
    /// Whether it gets another coercion than it has.
    pub moves: bool,
    /// The coercion that it gets then.
    pub coercion: Coercion,
}

/// Puts behind the others that one kid more stays as it is.
pub(crate) fn put_stay(kids: &mut Items<Settling>) -> Result<(), AllocError>
    ensures { OnOk result (map option_in kids.new ≡ map option_in kids.old ++ None ∷ []) }
{
    kids.push(Settling {
        moves: false,
        coercion: Coercion {
            row: 1,
            to: Ty::Null,
        },
    })
}

/// Puts behind the others that one kid more gets this coercion.
fn put_coercion(kids: &mut Items<Settling>, coercion: &Coercion) -> Result<(), AllocError>
    ensures { OnOk result (map option_in kids.new ≡ map option_in kids.old ++ Some coercion.now ∷ []) }
{
    kids.push(Settling {
        moves: true,
        coercion: *coercion,
    })
}

/// What a verdict lists.
#[derive(Drop)]
pub(crate) struct Listed {
    /// For each kid its coercion; it stays where it was asked for a type.
    pub(crate) kids: Items<Settling>,
    /// How many coercions of the verdict those are; the coercions of what was yielded stand behind them.
    pub(crate) count: usize,
}

/// Puts behind the others what a verdict lists for kid number `i`, where its coercions from `count` on are those of the kids from there on.
/// The answer is from where on they are those of the kids behind it.
fn list_next(
    alloc: Global,
    s: &mut TypeStore,
    t: &Turn<'_>,
    v: &Verdict,
    i: usize,
    count: usize,
    kids: &mut Items<Settling>,
) -> Result<usize, AllocError>
    requires kind { is_judged_kind (kind_in t.now) ≡ true }
    requires ready { IsReadyTurn s.old t.now }
    requires within { i < length t.now.kids.now }
    requires count { count ≤ i }
    requires room { i < usize.MAX }
    requires rest { (f : Store) → IsLater s.old f → drop count v.now.coerce ≡ listed_behind (context_in f t.now) i (yields_in t.now) }
    ensures kids { OnOk result ((f : Store) → IsLater s.new f → map option_in kids.new ≡ map option_in kids.old ++
        asked.listed (context_in f t.now) i ∷ []) }
    ensures rest { IfOk result (λ n. (f : Store) → IsLater s.new f → drop n v.now.coerce ≡ listed_behind (context_in f t.now) (i + 1)
        (yields_in t.now)) }
    ensures count { IfOk result (λ n. n ≤ count + 1) }
    ensures grown { IsGrown s.old s.new }
{
    let _law = s.declarations();
    if was_hinted(alloc, s, t, i)? {
        put_stay(kids)?;
        return Ok(count);
    }
    let Some(coercion) = v.coerce.get(count) else {
        unreachable!();
    };
    put_coercion(kids, coercion)?;
    Ok(count + 1)
}

/// The coercion that a verdict lists for each kid of its node.
pub(crate) fn list_kids(
    alloc: Global,
    s: &mut TypeStore,
    t: &Turn<'_>,
    v: &Verdict,
) -> Result<Listed, AllocError>
    requires kind { is_judged_kind (kind_in t.now) ≡ true }
    requires ready { IsReadyTurn s.old t.now }
    requires verdict { IsJudged s.old t.now v.now }
    ensures kids { IfOk result (λ x. (f : Store) → IsLater s.new f → map option_in x.kids ≡ listed_each (context_in f t.now) 0
        t.now.kids.now) }
    ensures many { IfOk result (λ x. length x.kids ≡ length t.now.kids.now) }
    ensures yields { IfOk result (λ x. (f : Store) → IsLater s.new f → drop x.count v.now.coerce ≡ yields_listed (context_in f t.now)
        (yields_in t.now)) }
    ensures grown { IsGrown s.old s.new }
{
    let _law = s.declarations();
    let mut kids = Items::new(alloc);
    let mut count = 0;
    for i in 0..t.kids.len() {
        count = list_next(alloc, s, t, v, i, count, &mut kids)?;
    }
    Ok(Listed { kids, count })
}
