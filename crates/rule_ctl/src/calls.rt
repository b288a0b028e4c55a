//! The functions that calls call.

ghost use Rattle.std.specs.Prelude.{◌≡◌, ◌≢◌, ◌<◌, ◌-◌, ℕ, true, length, drop, is_some, IfOk, Some};
ghost use Rattle.hare_tree.specs.declared.kind.Kind.TheVariants as ki;
ghost use Rattle.hare_types.specs.Store.{Store};
ghost use Rattle.hare_types.specs.Later.{IsLater};
ghost use Rattle.hare_typed.specs.Order.{tree_from_front};
ghost use Rattle.hare_rules.specs.Above.{param_at};
ghost use Rattle.hare_rules.specs.Aggregates as spec;
ghost use Rattle.hare_rules.specs.Rows.{holds};
ghost use Rattle.hare_rules.specs.Types.{type_by};
ghost use Rattle.hare_rules.specs.Words as words;
ghost use Rattle.hare_rules.specs.declared.row_id.RowId.TheVariants as row;
ghost use Rattle.rule_judge.specs.Asked.{asks_as};
ghost use Rattle.rule_judge.specs.Defined.{IsDefined, IsDefinedTy};
ghost use Rattle.rule_judge.specs.Grown.{IsGrown};
ghost use Rattle.rule_judge.specs.Meant.{IsMeant};
ghost use Rattle.rule_judge.specs.Settings.{setting_of};
ghost use Rattle.rule_judge.specs.Turns.{context_in, IsTurn};
ghost use Rattle.rule_ctl.specs.Calls.{count_of, result_in, runtime_at};

use hare_tree::{Kind, Meaning};
use hare_typed::TypedKids;
use hare_types::{Scalar, Ty, TypeId, TypeStore};
use rule_judge::{DeclTypes, Turn, kids_before, kind_at, slice_of, word};
use std::alloc::AllocError;

/// How many functions the module `rt` has.
const RUNTIME_FUNCTIONS: u32 = 7;

/// How many parameters the function of the module `rt` with this number has: `nargs` has none, and every other one.
fn runtime_param_count(n: u32) -> Option<usize>
    ensures { (f : Store) → result ≡ count_of (runtime_at f n) }
{
    if n >= RUNTIME_FUNCTIONS {
        return None;
    }
    if n == 4 { Some(0) } else { Some(1) }
}

/// How many parameters the function has that is meant; none where no function is meant.
fn param_count(decls: &DeclTypes, meaning: Meaning) -> Option<usize>
    ensures { (f : Store) → result ≡ count_of (spec.called (setting_of f decls.now) meaning) }
{
    match meaning {
        Meaning::Decl(n) => match decls.find(n) {
            Some(d) => match d.kind {
                Kind::Fn => Some(d.params.len()),
                _ => None,
            },
            None => None,
        },
        Meaning::Rt(n) => runtime_param_count(n),
        Meaning::Local(_) | Meaning::None => None,
    }
}

/// How many parameters the function has that the node calls; none where it calls none.
fn called_param_count(t: &Turn<'_>) -> Option<usize>
    ensures { (f : Store) → result ≡ count_of (spec.function_called (context_in f t.now)) }
{
    let case = t.case;
    match kind_at(t.kids, 0) {
        Kind::Path => param_count(t.decls, case.meaning),
        _ => None,
    }
}

/// How many arguments the node has: its kids but the callee and the place of a comma.
fn argument_count(kids: &TypedKids) -> usize
    ensures { result ≡ length (spec.but_last (drop 1 kids.now)) }
{
    kids.len().saturating_sub(2)
}

/// Whether a function is called.
pub(crate) fn is_callable(t: &Turn<'_>) -> bool
    ensures { (f : Store) → result ≡ holds row.CallCallable (context_in f t.now) }
{
    called_param_count(t).is_some()
}

/// Whether there are as many arguments as parameters.
pub(crate) fn has_arity(t: &Turn<'_>) -> bool
    ensures { (f : Store) → result ≡ holds row.CallArity (context_in f t.now) }
{
    match called_param_count(t) {
        Some(n) => n == argument_count(t.kids),
        None => false,
    }
}

/// The type of a slice of bytes.
fn bytes_slice(s: &mut TypeStore) -> Result<TypeId, AllocError>
    ensures id { IfOk result (λ u. (f : Store) → IsLater s.new f → spec.bytes_slice f ≡ Some u) }
    ensures defined { IfOk result (IsDefined s.new) }
    ensures grown { IsGrown s.old s.new }
{
    let _law = s.declarations();
    let byte = word(s, Scalar::U8)?;
    slice_of(s, byte)
}

/// The word that is the type of what the function of the module `rt` with this number gives; `bytes` gives a slice.
fn result_word(n: u32) -> Scalar
    requires within { n < 7 }
    requires other { n ≢ 3 }
    ensures { (f : Store) → result_in (runtime_at f n) ≡ words.word_id f result }
{
    match n {
        2 | 4 => Scalar::Size,
        5 => Scalar::Str,
        6 => Scalar::Never,
        _ => Scalar::Void,
    }
}

/// The type of what the function of the module `rt` with this number gives.
fn runtime_result(s: &mut TypeStore, n: u32) -> Result<TypeId, AllocError>
    requires { n < 7 }
    ensures id { IfOk result (λ u. (f : Store) → IsLater s.new f → result_in (runtime_at f n) ≡ Some u) }
    ensures defined { IfOk result (IsDefined s.new) }
    ensures grown { IsGrown s.old s.new }
{
    if n == 3 {
        return bytes_slice(s);
    }
    word(s, result_word(n))
}

/// The type of what a call gives.
pub(crate) fn call_type(s: &mut TypeStore, t: &Turn<'_>) -> Result<Ty, AllocError>
    requires meant { IsMeant s.old t.now.decls.now t.now.locals.now t.now.case.now.meaning }
    requires met { (f : Store) → IsLater s.old f → holds row.CallCallable (context_in f t.now) ≡ true }
    ensures value { IfOk result (λ a. (f : Store) → IsLater s.new f → type_by (context_in f t.now) ki.Call ≡ Some a) }
    ensures defined { IfOk result (IsDefinedTy s.new) }
    ensures grown { IsGrown s.old s.new }
{
    let _law = s.declarations();
    let case = t.case;
    match case.meaning {
        Meaning::Decl(n) => match t.decls.find(n) {
            Some(d) => Ok(Ty::Of(d.ty)),
            None => unreachable!(),
        },
        Meaning::Rt(n) => {
            let made = runtime_result(s, n)?;
            Ok(Ty::Of(made))
        }
        Meaning::Local(_) | Meaning::None => unreachable!(),
    }
}

/// What the callee means; nothing where it is no path.
fn callee_meaning(kids: &TypedKids) -> Meaning
    ensures { result ≡ spec.callee_meaning (tree_from_front 0 kids.now) }
{
    match kids.get(0) {
        Some(kid) => match kid.kind {
            Kind::Path => kid.meaning,
            _ => Meaning::None,
        },
        None => Meaning::None,
    }
}

/// Whether the function of the module `rt` with this number has a parameter number `j`.
fn has_runtime_param(s: &mut TypeStore, n: u32, j: usize) -> Result<bool, AllocError>
    ensures value { IfOk result (λ b. (f : Store) → IsLater s.new f → b ≡ is_some (param_at (runtime_at f n) j)) }
    ensures grown { IsGrown s.old s.new }
{
    let _law = s.declarations();
    if j != 0 {
        return Ok(false);
    }
    match n {
        0 | 3 => {
            word(s, Scalar::Str)?;
            Ok(true)
        }
        1 | 2 => {
            bytes_slice(s)?;
            Ok(true)
        }
        5 => {
            word(s, Scalar::Size)?;
            Ok(true)
        }
        6 => {
            word(s, Scalar::U8)?;
            Ok(true)
        }
        _ => Ok(false),
    }
}

/// Whether the function that is meant has a parameter number `j`.
fn has_param(
    s: &mut TypeStore,
    decls: &DeclTypes,
    meaning: Meaning,
    j: usize,
) -> Result<bool, AllocError>
    ensures value { IfOk result (λ b. (f : Store) → IsLater s.new f →
        b ≡ is_some (param_at (spec.called (setting_of f decls.now) meaning) j)) }
    ensures grown { IsGrown s.old s.new }
{
    let _law = s.declarations();
    match meaning {
        Meaning::Decl(n) => match decls.find(n) {
            Some(d) => match d.kind {
                Kind::Fn => Ok(d.params.get(j).is_some()),
                _ => Ok(false),
            },
            None => Ok(false),
        },
        Meaning::Rt(n) => has_runtime_param(s, n, j),
        Meaning::Local(_) | Meaning::None => Ok(false),
    }
}

/// Whether a call asks its kid number `i` for a type: an argument, where the function has such a parameter.
pub(crate) fn call_asks(s: &mut TypeStore, t: &Turn<'_>, i: usize) -> Result<bool, AllocError>
    ensures value { IfOk result (λ b. (f : Store) → IsLater s.new f → b ≡ asks_as (context_in f t.now) i ki.Call) }
    ensures grown { IsGrown s.old s.new }
{
    let _law = s.declarations();
    let before = kids_before(t.kids, i);
    if before == 0 {
        return Ok(false);
    }
    has_param(s, t.decls, callee_meaning(t.kids), before - 1)
}
