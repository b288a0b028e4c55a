//! What a crate of judges says of its own kinds.

use crate::turn::Turn;
use hare_rules::RowId;
use hare_tree::Place;
use hare_types::{Ty, TypeId, TypeStore};
use std::alloc::{AllocError, Global};

/// The rules of some kinds of nodes: what their own rows ask, which types they have, and where their kids go. The rows that all kinds
/// share, and the order in which rows are asked, are `judge_by`'s.
///
/// Each call may take types into the store, so that its answer holds in every later one; a call fails for want of memory alone.
///
/// A call is told of a node of one of these kinds, which is shaped and has its kids, which have been judged; each type that stands in them
/// or is told with it is in the store, and mentions no name that is not defined; and what the rules rely on beside that (`Needs`) holds.
/// These are the conditions of each call.
pub trait Rules {
    ghost use Rattle.std.specs.Prelude.{◌≡◌, Bool, true, None, Some, IfOk, IfSome};
    ghost use Rattle.hare_tree.specs.declared.kind.Kind.{Kind};
    ghost use Rattle.hare_types.specs.Store.{Store};
    ghost use Rattle.hare_types.specs.Later.{IsLater};
    ghost use Rattle.hare_rules.specs.declared.row_id.RowId.{RowId};
    ghost use Rattle.hare_rules.specs.Settles.{target_of};
    ghost use Rattle.hare_rules.specs.Table.{rows_of};
    ghost use Rattle.hare_rules.specs.Types.{type_of};
    ghost use Rattle.rule_judge.specs.declared.turn.Turn.{Turn};
    ghost use Rattle.rule_judge.specs.Asked.{are_asked, asks_type, own_failing, unmet};
    ghost use Rattle.rule_judge.specs.Defined.{IsDefined, IsDefinedTy};
    ghost use Rattle.rule_judge.specs.Grown.{IsGrown};
    ghost use Rattle.rule_judge.specs.Turns.{context_in, kind_in, IsTurn};

    /// Which kinds these are.
    ghost judges: { Kind → Bool };

    /// Which rows they have beside the two that all kinds share.
    ghost asks: { RowId → Bool };

    /// What they rely on beside what all kinds rely on.
    ghost Needs: { Store → Turn → Type 0 };

    /// The place of the fault, where the node fails the row; none where it meets it. The row is one that these kinds ask; the other
    /// conditions are those of each call.
    fn unmet(
        alloc: Global,
        s: &mut TypeStore,
        t: &Turn<'_>,
        row: RowId,
    ) -> Result<Option<Place>, AllocError>
        requires kind { judges (kind_in t.now) ≡ true }
        requires turn { IsTurn s.old t.now }
        requires needs { Needs s.old t.now }
        requires row { asks row ≡ true }
        ensures value { IfOk result (λ o. (f : Store) → IsLater s.new f → o ≡ unmet row (context_in f t.now)) }
        ensures grown { IsGrown s.old s.new };

    /// The type of what the node gives, which meets its own rows. The other conditions are those of each call.
    fn own_type(alloc: Global, s: &mut TypeStore, t: &Turn<'_>) -> Result<Ty, AllocError>
        requires kind { judges (kind_in t.now) ≡ true }
        requires turn { IsTurn s.old t.now }
        requires needs { Needs s.old t.now }
        requires rows { (f : Store) → IsLater s.old f → own_failing (context_in f t.now) ≡ None }
        ensures value { IfOk result (λ a. (f : Store) → IsLater s.new f → type_of (context_in f t.now) ≡ Some a) }
        ensures defined { IfOk result (IsDefinedTy s.new) }
        ensures grown { IsGrown s.old s.new };

    /// Whether the node has asked its kid number `i` for a value of a type, where that is an expression or a statement. The conditions are
    /// those of each call.
    fn asks_type(
        alloc: Global,
        s: &mut TypeStore,
        t: &Turn<'_>,
        i: usize,
    ) -> Result<bool, AllocError>
        requires kind { judges (kind_in t.now) ≡ true }
        requires turn { IsTurn s.old t.now }
        requires needs { Needs s.old t.now }
        ensures value { IfOk result (λ b. (f : Store) → IsLater s.new f → b ≡ asks_type (context_in f t.now) i) }
        ensures grown { IsGrown s.old s.new };

    /// The type to which kid number `i` goes that was asked for none; none where it stays as it is. The node meets its rows, and what it
    /// gives has the type `ty`: kids that come together in that type are not looked through again for each of them. That type is in the
    /// store, and mentions no name that is not defined; the other conditions are those of each call.
    fn target(
        alloc: Global,
        s: &mut TypeStore,
        t: &Turn<'_>,
        ty: &Ty,
        i: usize,
    ) -> Result<Option<TypeId>, AllocError>
        requires kind { judges (kind_in t.now) ≡ true }
        requires turn { IsTurn s.old t.now }
        requires needs { Needs s.old t.now }
        requires rows { (f : Store) → IsLater s.old f → own_failing (context_in f t.now) ≡ None }
        requires gives { (f : Store) → IsLater s.old f → type_of (context_in f t.now) ≡ Some ty.now }
        requires defined { IsDefinedTy s.old ty.now }
        ensures value { IfOk result (λ o. (f : Store) → IsLater s.new f → o ≡ target_of (context_in f t.now) (kind_in t.now) i) }
        ensures defined { IfOk result (λ o. IfSome o (IsDefined s.new)) }
        ensures grown { IsGrown s.old s.new };

    /// The rows that these kinds ask are the table's: each list is made of them, and ends in the two that all kinds share.
    ghost rows: { (k : Kind) → judges k ≡ true → are_asked asks (rows_of k) ≡ true };

    /// What they rely on stays as the store grows.
    ghost needs_stay: { (now later : Store) (t : Turn) → IsGrown now later → Needs now t → Needs later t };
}
