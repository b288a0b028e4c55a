//! The rules of literals, operators, casts, sizes and parentheses.

use crate::met::is_met;
use crate::{targets, types};
use hare_rules::RowId;
use hare_tree::Place;
use hare_types::{Ty, TypeId, TypeStore};
use rule_judge::{Rules, Turn};
use std::alloc::{AllocError, Global};

/// The rules of literals, operators, casts, sizes and parentheses.
pub(crate) struct Operators;

impl Rules for Operators {
    ghost use Rattle.rule_ops.specs.Kinds.{is_operator, is_operator_row};
    ghost use Rattle.rule_ops.specs.Laws.{rows_asked};

    ghost judges = { is_operator };

    ghost asks = { is_operator_row };

    ghost Needs = { λ _ _. Unit {0} };

    fn unmet(
        _alloc: Global,
        s: &mut TypeStore,
        t: &Turn<'_>,
        row: RowId,
    ) -> Result<Option<Place>, AllocError> {
        let _law = s.declarations();
        let node = t.node;
        if is_met(s, t, row) {
            Ok(None)
        } else {
            Ok(Some(node.place))
        }
    }

    fn own_type(_alloc: Global, s: &mut TypeStore, t: &Turn<'_>) -> Result<Ty, AllocError> {
        types::own_type(s, t)
    }

    fn asks_type(
        _alloc: Global,
        s: &mut TypeStore,
        t: &Turn<'_>,
        i: usize,
    ) -> Result<bool, AllocError> {
        targets::asks_type(s, t, i)
    }

    fn target(
        _alloc: Global,
        s: &mut TypeStore,
        t: &Turn<'_>,
        _ty: &Ty,
        i: usize,
    ) -> Result<Option<TypeId>, AllocError> {
        targets::target(s, t, i)
    }

    ghost rows = { rows_asked };

    ghost needs_stay = { λ _ _ _ _ _. tt };
}
