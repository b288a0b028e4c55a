//! What the cases of a `match` or of a `switch` come to.

ghost use Rattle.std.specs.Prelude.{◌≡◌, drop, option_map, IfOk, IfSome, Some};
ghost use Rattle.hare_tree.specs.declared.kind.Kind.TheVariants as ki;
ghost use Rattle.hare_types.specs.Store.{Store};
ghost use Rattle.hare_types.specs.Later.{IsLater};
ghost use Rattle.hare_rules.specs.Control as control;
ghost use Rattle.hare_rules.specs.Joined.{first_misfit};
ghost use Rattle.hare_rules.specs.Settles as settles;
ghost use Rattle.rule_judge.specs.Asked.{asks_as};
ghost use Rattle.rule_judge.specs.Defined.{IsDefined, IsDefinedTy};
ghost use Rattle.rule_judge.specs.Grown.{IsGrown};
ghost use Rattle.rule_judge.specs.Turns.{context_in, IsTurn};
ghost use Rattle.rule_join.specs.Cases.{AreTyped};
ghost use Rattle.rule_join.specs.Together.{place_in};

use crate::joins::{joined_target, misfit};
use crate::types::type_together;
use crate::values::Source;
use hare_tree::Place;
use hare_types::{Ty, TypeId, TypeStore};
use rule_judge::{Turn, is_type_hint, kids_before};
use std::alloc::AllocError;

/// The type of a `match` or a `switch`: under a hint of a type that type, and void where it is dropped; else the type of the first case
/// that goes on, and `never` where none does.
///
/// The node is shaped and has its kids, which have been judged, and each kid behind the first has a type; each type that stands in them or
/// is told with the node is in the store, and mentions no name that is not defined. The store may grow in types. Fails for want of memory
/// alone.
pub fn cases_type(s: &mut TypeStore, t: &Turn<'_>) -> Result<Ty, AllocError>
    requires turn { IsTurn s.old t.now }
    requires typed { AreTyped (drop 1 t.now.kids.now) }
    ensures value { IfOk result (λ a. (f : Store) → IsLater s.new f → control.cases_type (context_in f t.now) ≡ Some a) }
    ensures defined { IfOk result (IsDefinedTy s.new) }
    ensures grown { IsGrown s.old s.new }
{
    type_together(s, Source::Cases, t)
}

/// Where the first case stands whose type does not fit that of all; none where each fits. Under a hint each has been judged by it.
///
/// The node is shaped and has its kids, which have been judged; each type that stands in them or is told with it is in the store, and
/// mentions no name that is not defined. The store may grow in types. Fails for want of memory alone.
pub fn case_misfit(s: &mut TypeStore, t: &Turn<'_>) -> Result<Option<Place>, AllocError>
    requires { IsTurn s.old t.now }
    ensures value { IfOk result (λ o. (f : Store) → IsLater s.new f →
        o ≡ option_map place_in (first_misfit f t.now.case.now.hint (control.case_values (context_in f t.now)))) }
    ensures grown { IsGrown s.old s.new }
{
    misfit(s, Source::Cases, t)
}

/// Whether a `match` or a `switch` asks its kid number `i` for a type: each case, where the node is asked for one.
pub fn asks_case(t: &Turn<'_>, i: usize) -> bool
    ensures { (f : Store) → result ≡ asks_as (context_in f t.now) i ki.Match }
{
    if kids_before(t.kids, i) == 0 {
        return false;
    }
    let case = t.case;
    is_type_hint(&case.hint)
}

/// The type to which kid number `i` of a `match` goes, or of a `switch` where it is a case: that of all cases, which is the type `ty` of
/// the node, where the node is asked for none. None where it stays as it is. The time does not go with the cases.
pub fn case_target(t: &Turn<'_>, ty: &Ty, i: usize) -> Option<TypeId>
    ensures value { (f : Store) → control.cases_type (context_in f t.now) ≡ Some ty.now →
        result ≡ settles.case_target (context_in f t.now) i }
    ensures defined { (s : Store) → IsDefinedTy s ty.now → IfSome result (IsDefined s) }
{
    if i == 0 {
        return None;
    }
    joined_target(t, ty)
}
