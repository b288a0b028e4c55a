//! What a node settles of its kids.

ghost use Rattle.std.specs.Prelude.{◌≡◌, ◌<◌, length, map};
ghost use Rattle.hare_typed.specs.Order.{tree_from_front};
ghost use Rattle.hare_rules.specs.Flow.{write_each};
ghost use Rattle.hare_find.specs.Settling.{option_in};
ghost use Rattle.hare_find.specs.Listed.{written_one, written_each, coated_at, coated_each};

use crate::listed::Settling;
use hare_flow::Seen;
use hare_typed::TypedKids;

/// Gives kid number `i` the coercion that is settled of it, where one is.
fn settle_kid(seen: &mut Seen, kids: &mut TypedKids, i: usize, settling: &Settling)
    requires { i < length kids.old }
    ensures seen { seen.new ≡ record seen.old
        { coercions = write_each (written_one (tree_from_front i kids.old) (option_in settling.now)) seen.old.coercions } }
    ensures kids { kids.new ≡ coated_at i (option_in settling.now) kids.old }
{
    let Some(kid) = kids.get(i) else {
        unreachable!();
    };
    let node = kid.node;
    if settling.moves {
        seen.settle(node, settling.coercion);
        kids.settle(i, settling.coercion);
    }
}

/// Gives each kid the coercion that is settled of it, where one is.
pub(crate) fn settle(seen: &mut Seen, kids: &mut TypedKids, settlings: &[Settling])
    requires { length settlings.now ≡ length kids.old }
    ensures seen { seen.new ≡ record seen.old
        { coercions = write_each (written_each kids.old (map option_in settlings.now)) seen.old.coercions } }
    ensures kids { kids.new ≡ coated_each kids.old (map option_in settlings.now) }
{
    for i in 0..kids.len() {
        settle_kid(seen, kids, i, &settlings[i]);
    }
}
