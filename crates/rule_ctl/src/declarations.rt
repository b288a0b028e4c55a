//! The judge of declarations with a value: of a def and of a global.

ghost use Rattle.std.specs.Prelude.{◌≡◌, true, false, not, cond, Some, None, IfOk, IfErr, IfSome};
ghost use Rattle.hare_tree.specs.Node.{head};
ghost use Rattle.hare_types.specs.Store.{Store};
ghost use Rattle.hare_types.specs.Later.{IsLater};
ghost use Rattle.hare_rules.specs.Constants.{is_absent_value};
ghost use Rattle.hare_rules.specs.Judged.{IsRefusal};
ghost use Rattle.hare_rules.specs.Rows.{holds};
ghost use Rattle.hare_rules.specs.Settles.{target_of};
ghost use Rattle.hare_rules.specs.Table.{number_of};
ghost use Rattle.hare_rules.specs.Types.{type_of};
ghost use Rattle.hare_rules.specs.declared.row_id.RowId.TheVariants as row;
ghost use Rattle.rule_judge.specs.Asked as spec;
ghost use Rattle.rule_judge.specs.Defined.{IsDefined, IsDefinedTy, IsDefinedVerdict};
ghost use Rattle.rule_judge.specs.Grown.{IsGrown};
ghost use Rattle.rule_judge.specs.Told.{IsToldNode, IsJudgedNode, IsStoppedNode};
ghost use Rattle.rule_judge.specs.Turns.{context_in, kind_in, IsTurn};
ghost use Rattle.rule_ctl.specs.Declaring.{declares, asks, IsConstant, IsInconstantAt, IsInconstantNode};

use crate::bindings::{
    binding_target, declared_asks, has_sized_type, has_type, type_place, value_kid, value_place,
    written_or_value,
};
use crate::types::word_type;
use hare_rules::{Case, Locals, RowId, Verdict, number};
use hare_tree::{Fault, Place, Stop, Tree};
use hare_typed::{Const, TypedKids};
use hare_types::{Scalar, Ty, TypeId, TypeStore};
use rule_judge::{DeclTypes, Rules, Turn, is_scalar, judge_by};
use std::alloc::{AllocError, Global};

/// The rules of declarations of which the value is constant.
pub(crate) struct Declaring;

impl Rules for Declaring {
    ghost use Rattle.rule_ctl.specs.Declaring.{declares, asks, IsConstant};
    ghost use Rattle.rule_ctl.specs.DeclaringLaws.{rows_asked, constant_stays};

    ghost judges = { declares };

    ghost asks = { asks };

    ghost Needs = { IsConstant };

    fn unmet(
        _alloc: Global,
        s: &mut TypeStore,
        t: &Turn<'_>,
        row: RowId,
    ) -> Result<Option<Place>, AllocError> {
        unmet(s, t, row)
    }

    fn own_type(_alloc: Global, s: &mut TypeStore, t: &Turn<'_>) -> Result<Ty, AllocError> {
        own_type(s, t)
    }

    fn asks_type(
        _alloc: Global,
        s: &mut TypeStore,
        t: &Turn<'_>,
        i: usize,
    ) -> Result<bool, AllocError> {
        asks_type(s, t, i)
    }

    fn target(
        _alloc: Global,
        s: &mut TypeStore,
        t: &Turn<'_>,
        _ty: &Ty,
        i: usize,
    ) -> Result<Option<TypeId>, AllocError> {
        target(s, t, i)
    }

    ghost rows = { rows_asked };

    ghost needs_stay = { constant_stays };
}

/// Whether a constant stands there.
fn is_known(value: &Const) -> bool
    ensures { result ≡ not (is_absent_value value.now) }
{
    match value {
        Const::Known { .. } => true,
        Const::Absent => false,
    }
}

/// Whether the value has a constant.
fn is_constant(t: &Turn<'_>) -> bool
    ensures { (f : Store) → result ≡ holds row.BindingConstant (context_in f t.now) }
{
    match t.kids.get(value_kid(t)) {
        Some(value) => is_known(&value.value),
        None => false,
    }
}

/// Whether the base of the written type, or else of the value's, is an integer type, `bool`, `rune` or `str`.
fn has_scalar_type(s: &TypeStore, t: &Turn<'_>) -> bool
    requires { IsTurn s.now t.now }
    ensures { (f : Store) → IsLater s.now f → result ≡ holds row.DefScalar (context_in f t.now) }
{
    is_scalar(s, &written_or_value(t))
}

/// The place of the fault, unless the row is met.
fn unless(met: bool, place: Place) -> Option<Place>
    ensures { result ≡ cond met None (Some place) }
{
    if met { None } else { Some(place) }
}

/// The place of the fault, where the node fails one of these rows; none where it meets it. Its value is constant.
fn unmet(s: &mut TypeStore, t: &Turn<'_>, row: RowId) -> Result<Option<Place>, AllocError>
    requires turn { IsTurn s.old t.now }
    requires needs { IsConstant s.old t.now }
    requires row { asks row ≡ true }
    ensures value { IfOk result (λ o. (f : Store) → IsLater s.new f → o ≡ spec.unmet row (context_in f t.now)) }
    ensures grown { IsGrown s.old s.new }
{
    let _law = s.declarations();
    match row {
        RowId::BindingDefault => Ok(unless(has_type(t), value_place(t))),
        RowId::BindingHasSize => {
            let met = has_sized_type(s, t)?;
            Ok(unless(met, type_place(t)))
        }
        RowId::BindingConstant => Ok(None),
        RowId::DefScalar => Ok(unless(has_scalar_type(s, t), value_place(t))),
        _ => unreachable!(),
    }
}

/// The type of a declaration: void.
fn own_type(s: &mut TypeStore, t: &Turn<'_>) -> Result<Ty, AllocError>
    requires { declares (kind_in t.now) ≡ true }
    ensures value { IfOk result (λ a. (f : Store) → IsLater s.new f → type_of (context_in f t.now) ≡ Some a) }
    ensures defined { IfOk result (IsDefinedTy s.new) }
    ensures grown { IsGrown s.old s.new }
{
    let void = word_type(s, Scalar::Void)?;
    Ok(void)
}

/// Whether the node has asked its kid number `i` for a value of a type: the value, where the type is written.
fn asks_type(s: &mut TypeStore, t: &Turn<'_>, i: usize) -> Result<bool, AllocError>
    requires { declares (kind_in t.now) ≡ true }
    ensures value { IfOk result (λ b. (f : Store) → IsLater s.new f → b ≡ spec.asks_type (context_in f t.now) i) }
    ensures grown { IsGrown s.old s.new }
{
    let _law = s.declarations();
    Ok(declared_asks(t, i))
}

/// The type to which kid number `i` goes that was asked for none: the value to its default, where no type is written.
fn target(s: &mut TypeStore, t: &Turn<'_>, i: usize) -> Result<Option<TypeId>, AllocError>
    requires kind { declares (kind_in t.now) ≡ true }
    requires turn { IsTurn s.old t.now }
    ensures value { IfOk result (λ o. (f : Store) → IsLater s.new f → o ≡ target_of (context_in f t.now) (kind_in t.now) i) }
    ensures defined { IfOk result (λ o. IfSome o (IsDefined s.new)) }
    ensures grown { IsGrown s.old s.new }
{
    let to = binding_target(s, t, i)?;
    Ok(to)
}

/// The fault of a row at a place.
fn fault(row: RowId, place: Place) -> Fault
    ensures { result ≡ record { number = number_of row; place = place } }
{
    Fault {
        number: number(row),
        place,
    }
}

/// The fault of a declaration of which the value is not constant: that of the first of the rows up to the one that asks for a constant.
fn inconstant_fault(
    s: &mut TypeStore,
    t: &Turn<'_>,
    inconstant: Option<Place>,
) -> Result<Fault, AllocError>
    requires kind { declares (kind_in t.now) ≡ true }
    requires turn { IsTurn s.old t.now }
    requires not_constant { (f : Store) → holds row.BindingConstant (context_in f t.now) ≡ false }
    requires inconstant { IsInconstantAt s.old t.now inconstant }
    ensures fault { IfOk result (λ e. (f : Store) → IsLater s.new f → IsRefusal (context_in f t.now) e) }
    ensures grown { IsGrown s.old s.new }
{
    let _law = s.declarations();
    if !has_type(t) {
        return Ok(fault(RowId::BindingDefault, value_place(t)));
    }
    let sized = has_sized_type(s, t)?;
    if !sized {
        return Ok(fault(RowId::BindingHasSize, type_place(t)));
    }
    let node = t.node;
    match inconstant {
        Some(place) => Ok(fault(RowId::BindingConstant, place)),
        None => Ok(fault(RowId::BindingConstant, node.place)),
    }
}

/// Judges the declaration of a def or of a global: the coercion of its value where no type is written, or the fault of the first row of the
/// table of typing rules that it fails. Its type is written, or the value has a default; that type has a size; the value is constant; and a
/// def has an integer type, `bool`, `rune` or `str` as its base. The answer is that of every later store. The store may grow in types, also
/// where there is a fault.
///
/// `inconstant` is where the first node of the value stands, in check order, that is not constant or would abort; it is asked for only
/// where the value
/// has no constant. The node is shaped and has these kids, which have been judged, the value with its constant; each type that stands in
/// them or in `c` is in the store, and mentions no name that is not defined.
pub fn judge_declaration(
    alloc: Global,
    s: &mut TypeStore,
    decls: &DeclTypes,
    locals: &Locals,
    c: &Case,
    node: &Tree,
    kids: &TypedKids,
    inconstant: Option<Place>,
) -> Result<Verdict, Stop<Fault>>
    requires kind { declares (head node.now).kind ≡ true }
    requires told { IsToldNode s.old c.now node.now kids.now }
    requires inconstant { IsInconstantNode s.old decls.now locals.now c.now (head node.now) kids.now inconstant }
    ensures ok { IfOk result (IsJudgedNode s.new decls.now locals.now c.now node.now kids.now) }
    ensures err { IfErr result (IsStoppedNode s.new decls.now locals.now c.now node.now kids.now) }
    ensures defined { IfOk result (IsDefinedVerdict s.new) }
    ensures kept { IsGrown s.old s.new }
{
    let _law = s.declarations();
    let t = Turn {
        decls,
        locals,
        case: c,
        node,
        kids,
    };
    if is_constant(&t) {
        return judge_by::<Declaring>(alloc, s, &t);
    }
    let fault = inconstant_fault(s, &t, inconstant)?;
    Err(Stop::Fault(fault))
}
