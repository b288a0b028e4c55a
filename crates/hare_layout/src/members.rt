//! Which unions hold which.

ghost use Rattle.std.specs.Prelude.{◌≡◌, ◌≤◌, ◌↔◌, ℕ, List, ◌∷◌, IsTrue, Some, drop, length, slice_get};
ghost use Rattle.hare_types.specs.declared.row.Row.TheVariants.{Union};
ghost use Rattle.hare_types.specs.Sound.{IsStore};
ghost use Rattle.hare_types.specs.Rows.{Ascends};
ghost use Rattle.hare_layout.specs.Members.{IsUnion, HoldsMembers, all_among};

use hare_types::{Row, TypeId, TypeStore};

/// How many of the types were met, in their order, once `u` is met too.
fn met_with(types: &[TypeId], met: usize, u: TypeId) -> usize
    requires types { Ascends types.now }
    requires within { met ≤ length types.now }
    ensures within { result ≤ length types.now }
    ensures value { (js : List ℕ) → Ascends (u ∷ js) → all_among (drop met types.now) (u ∷ js) ≡ all_among (drop result types.now) js }
{
    if met == types.len() {
        return met;
    }
    if types[met] == u {
        return met + 1;
    }
    met
}

/// Whether each of the first types is one of the others. Both ascend, so that one pass over the others meets the first in their order.
fn all_among(types: &[TypeId], others: &[TypeId]) -> bool
    requires types { Ascends types.now }
    requires others { Ascends others.now }
    ensures { result ≡ all_among types.now others.now }
{
    let mut met = 0;
    for u in others {
        met = met_with(types, met, *u);
    }
    met == types.len()
}

/// The members of an unnamed union.
fn members_of(s: &TypeStore, t: TypeId) -> &[TypeId]
    requires { IsUnion s.now t }
    ensures row { slice_get s.now.rows t ≡ Some (Union result.now) }
    ensures ascend { Ascends result.now }
    ensures sound { IsStore s.now }
{
    match s.row(t) {
        Row::Union(types) => types.as_slice(),
        _ => unreachable!(),
    }
}

/// Whether each member of the unnamed union `a` is a member of the unnamed union `b`.
pub fn subset(s: &TypeStore, a: TypeId, b: TypeId) -> bool
    requires first { IsUnion s.now a }
    requires second { IsUnion s.now b }
    ensures { IsTrue result ↔ HoldsMembers s.now a b }
{
    all_among(members_of(s, a), members_of(s, b))
}
