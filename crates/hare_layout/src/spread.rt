//! The types that a member brings into a union.

ghost use Rattle.std.specs.Prelude.{◌≡◌, ◌<◌, ◌∷◌, [], true, false, length, IfSome, IfNone};
ghost use Rattle.hare_types.specs.Rows.{tree_in, trees};
ghost use Rattle.hare_types.specs.Sound.{IsStore};
ghost use Rattle.hare_layout.specs.Ids.{AreBrought, IsNoUnion};

use hare_types::{Row, TypeId, TypeStore};

/// The members of the union that is the base of a type, `None` where its base is no union.
fn spread(s: &TypeStore, t: TypeId) -> Option<&[TypeId]>
    requires within { t < length s.now.rows }
    requires sound { IsStore s.now }
    ensures some { IfSome result (λ js. AreBrought s.now true (tree_in (trees s.now.rows) t) js.now) }
    ensures none { IfNone result (IsNoUnion s.now (tree_in (trees s.now.rows) t)) }
{
    match s.base(t) {
        Some(base) => match s.row(base) {
            Row::Union(types) => Some(types.as_slice()),
            _ => None,
        },
        None => None,
    }
}

/// The members of an unnamed union, and of any other type itself alone.
fn flattened<'a>(s: &'a TypeStore, t: TypeId, alone: &'a [TypeId]) -> &'a [TypeId]
    requires within { t < length s.now.rows }
    requires alone { alone.now ≡ t ∷ [] }
    ensures { AreBrought s.now false (tree_in (trees s.now.rows) t) result.now }
{
    match s.row(t) {
        Row::Union(types) => types.as_slice(),
        _ => alone,
    }
}

/// The types that a member brings into a union: `None` where it is spread, and its base is no union.
pub(crate) fn brought<'a>(
    s: &'a TypeStore,
    t: TypeId,
    is_spread: bool,
    alone: &'a [TypeId],
) -> Option<&'a [TypeId]>
    requires within { t < length s.now.rows }
    requires sound { IsStore s.now }
    requires alone { alone.now ≡ t ∷ [] }
    ensures some { IfSome result (λ js. AreBrought s.now is_spread (tree_in (trees s.now.rows) t) js.now) }
    ensures none { IfNone result ((is_spread ≡ true) × IsNoUnion s.now (tree_in (trees s.now.rows) t)) }
{
    if is_spread {
        spread(s, t)
    } else {
        Some(flattened(s, t, alone))
    }
}
