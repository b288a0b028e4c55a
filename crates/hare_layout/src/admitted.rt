//! Which spelled types are admitted.

ghost use Rattle.std.specs.Prelude.{◌≡◌, ◌↔◌, ◌≤◌, length, IsTrue, Some, IfSome, IfNone, IfOk, IfErr, OnOk, OnErr};
ghost use Rattle.hare_tree.specs.declared.place.Fault.{Fault as FaultOf};
ghost use Rattle.hare_types.specs.declared.extent.Extent.{Extent as ExtentOf};
ghost use Rattle.hare_types.specs.ByIds.{extent_at};
ghost use Rattle.hare_types.specs.Kept.{LiesIn, IsToldOf};
ghost use Rattle.hare_types.specs.Layout.{HasExtent};
ghost use Rattle.hare_types.specs.Rows.{IsWithin};
ghost use Rattle.hare_types.specs.Store.{tree_at, Extends};
ghost use Rattle.hare_types.specs.Trees.{Tree};
ghost use Rattle.hare_layout.specs.Small.{IsSmall};
ghost use Rattle.hare_layout.specs.Reduction.{IsReducedTo};
ghost use Rattle.hare_layout.specs.Admission.{IsAdmitted, IsFault, StopsAt, TellsFault};
ghost use Rattle.hare_layout.specs.Reduced.{IsHere, tree_of_reduced, IsLarge};

use crate::reduce::{Reduced, reduce};
use crate::size::MOST_BYTES;
use crate::spelled::Spelled;
use hare_tree::{Fault, Place, Stop};
use hare_types::{Extent, TypeId, TypeStore};
use std::alloc::Global;

/// The extent of a type, as its store tells it.
fn extent_of(s: &TypeStore, t: &Reduced) -> Option<Extent>
    requires { IsHere s.now t.now }
    ensures some { IfSome result (λ x. IsToldOf s.now (tree_of_reduced s.now t.now) x) }
    ensures none { IfNone result ((y : ExtentOf) → ¬ HasExtent s.now (tree_of_reduced s.now t.now) y) }
{
    match t {
        Reduced::Known(id) => s.extent(*id),
        Reduced::Fresh(row) => s.row_extent(row),
    }
}

/// Whether it is known that a type has more than 67,108,864 bytes.
fn is_too_large(s: &TypeStore, t: &Reduced) -> bool
    requires { IsHere s.now t.now }
    ensures { IsTrue result ↔ IsLarge s.now (tree_of_reduced s.now t.now) }
{
    match extent_of(s, t) {
        Some(x) => x.size > MOST_BYTES,
        None => false,
    }
}

/// Reduces a spelled type, and takes it into the store: unnamed unions among the members of a union are flattened, a member that is spread
/// is replaced by the members of the union that it is, never is dropped, and equal members are joined; one member alone is that member. The
/// ids in `r` are of the store.
///
/// What is wrong with the type is told by the first of these faults, each of which but the first stands at `place`:
///
/// - E35 at the first member that is spread, and whose base is no union, or is not defined;
/// - E17, where an array's or a slice's element, a struct's field, a tuple's component or a member that is left of a union has no size. A
/// named
///   type of which it is not declared whether it has a size counts as one that has;
/// - E19, where no member is left;
/// - E20, where more than 64 members are left;
/// - E18, where the type has more than 67,108,864 bytes. It is looked at only where each name that the type holds by value is defined.
///
/// So the type that is given has at most 67,108,864 bytes, and is small enough for `size_of`, wherever its extent is known. After a fault,
/// and where there is not enough memory, the store is as it was.
pub fn admit(
    alloc: Global,
    s: &mut TypeStore,
    r: &Spelled,
    place: Place,
) -> Result<TypeId, Stop<Fault>>
    requires { IsWithin (length s.old.rows) r.now.row }
    ensures ok { IfOk result (λ t. (u : Tree) × IsReducedTo s.old r.now u × (tree_at s.new t ≡ Some u)) }
    ensures small { IfOk result (λ t. (x : ExtentOf) → LiesIn s.new t x → x.size ≤ 67108864) }
    ensures fits { IfOk result (λ t. (x : ExtentOf) → extent_at s.new t ≡ Some x → IsSmall s.new t) }
    ensures admitted { OnOk result (IsAdmitted s.old r.now place) }
    ensures err { IfErr result (StopsAt s.old r.now place) }
    ensures only { (f : FaultOf) → IsFault s.old r.now place f → TellsFault result f }
    ensures kept { OnErr result (s.new ≡ s.old) }
    ensures rest { s.new ≡ record s.old { rows = s.new.rows } }
    ensures grows { Extends s.old s.new }
{
    let reduced = reduce(alloc, s, r, place)?;
    if is_too_large(s, &reduced) {
        return Err(Stop::Fault(Fault { number: 18, place }));
    }
    match reduced {
        Reduced::Known(t) => Ok(t),
        Reduced::Fresh(row) => {
            let t = s.intern(row)?;
            Ok(t)
        }
    }
}
