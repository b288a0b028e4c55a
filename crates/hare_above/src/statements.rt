//! What bindings, branches and statements ask of their parts.

ghost use Rattle.std.specs.Prelude.{◌≡◌, [], ◌∷◌, IfOk, length, slice_get, Some};
ghost use Rattle.hare_tree.specs.declared.kind.Kind.TheVariants as ki;
ghost use Rattle.hare_tree.specs.Node.{head};
ghost use Rattle.hare_types.specs.Store.{Store};
ghost use Rattle.hare_types.specs.Later.{IsLater};
ghost use Rattle.hare_typed.specs.Typed.{typed_nodes};
ghost use Rattle.hare_typed.specs.Order.{tree_from_front};
ghost use Rattle.hare_rules.specs.Above as above;
ghost use Rattle.hare_rules.specs.Context.{Setting};
ghost use Rattle.rule_judge.specs.Defined.{IsDefinedHint, AreDefinedTrees};
ghost use Rattle.rule_judge.specs.Grown.{IsGrown};
ghost use Rattle.hare_above.specs.Asked.{asked_as, labels_in};
ghost use Rattle.hare_above.specs.Ready.{AreDefinedOpens};

use crate::asking::{Asking, hint_to, word_hint};
use crate::heap::kind_behind;
use crate::jumps::yielded_hint;
use crate::values::id_at;
use hare_rules::Hint;
use hare_tree::Kind;
use hare_typed::TypedKids;
use hare_types::{Scalar, TypeStore};
use rule_judge::is_there;
use std::alloc::AllocError;

/// What a binding asks of its value: a value of the type that is written as its kid number `i`, if one is.
fn written_hint(kids: &TypedKids, i: usize) -> Hint
    ensures value { result ≡ above.written_hint (tree_from_front i kids.now) }
    ensures defined { (s : Store) → AreDefinedTrees s (typed_nodes kids.now) → IsDefinedHint s result }
{
    if !is_there(kids, i) {
        return Hint::None;
    }
    hint_to(id_at(kids, i))
}

/// What `let` or `const` asks of its next kid: of the value a value of the written type.
pub(crate) fn binding_hint(q: &Asking<'_>) -> Hint
    ensures variable { (w : Setting) → result ≡ asked_as w q.now ki.Let }
    ensures constant { (w : Setting) → result ≡ asked_as w q.now ki.Const }
    ensures defined { (s : Store) → AreDefinedTrees s (typed_nodes q.now.done.now) → IsDefinedHint s result }
{
    if q.done.len() != 1 {
        return Hint::None;
    }
    written_hint(q.done, 0)
}

/// What a declaration with a value asks of its next kid: of the value a value of the written type.
pub(crate) fn declared_hint(q: &Asking<'_>) -> Hint
    ensures constant { (w : Setting) → result ≡ asked_as w q.now ki.Def }
    ensures variable { (w : Setting) → result ≡ asked_as w q.now ki.GlobalLet }
    ensures fixed { (w : Setting) → result ≡ asked_as w q.now ki.GlobalConst }
    ensures defined { (s : Store) → AreDefinedTrees s (typed_nodes q.now.done.now) → IsDefinedHint s result }
{
    if q.done.len() < 3 {
        return Hint::None;
    }
    written_hint(q.done, 2)
}

/// What an `if` asks of its next kid: `bool` of the condition; and of the branches what it is itself asked for, or nothing, where there is
/// no `else`.
pub(crate) fn branch_hint(s: &mut TypeStore, q: &Asking<'_>) -> Result<Hint, AllocError>
    requires own { IsDefinedHint s.old q.now.own }
    requires next { slice_get q.now.kids.now (length q.now.done.now) ≡ Some q.now.kid.now }
    ensures value { IfOk result (λ h. (w : Setting) → IsLater s.new w.store → h ≡ asked_as w q.now ki.If) }
    ensures defined { IfOk result (IsDefinedHint s.new) }
    ensures grown { IsGrown s.old s.new }
{
    let _law = s.declarations();
    let before = q.done.len();
    if before == 0 {
        return word_hint(s, Scalar::Bool);
    }
    if before == 1 && kind_behind(q) == Kind::None {
        return Ok(Hint::Drop);
    }
    Ok(q.own)
}

/// What a `for` asks of its next kid: `bool` of the condition; what comes behind is dropped.
pub(crate) fn loop_hint(s: &mut TypeStore, q: &Asking<'_>) -> Result<Hint, AllocError>
    ensures value { IfOk result (λ h. (w : Setting) → IsLater s.new w.store → h ≡ asked_as w q.now ki.For) }
    ensures defined { IfOk result (IsDefinedHint s.new) }
    ensures grown { IsGrown s.old s.new }
{
    let _law = s.declarations();
    match q.done.len() {
        0 => Ok(Hint::None),
        1 => word_hint(s, Scalar::Bool),
        _ => Ok(Hint::Drop),
    }
}

/// What a `for` over elements asks of its next kid: the body is dropped.
pub(crate) fn each_hint(q: &Asking<'_>) -> Hint
    ensures value { (w : Setting) → result ≡ asked_as w q.now ki.ForEach }
    ensures defined { (s : Store) → IsDefinedHint s result }
{
    if q.done.len() < 2 {
        Hint::None
    } else {
        Hint::Drop
    }
}

/// What a `yield` asks of its value: what is asked of its block or case.
pub(crate) fn yield_hint(q: &Asking<'_>) -> Hint
    requires { length q.now.hints.now ≡ length q.now.labels.now }
    ensures value { (w : Setting) → result ≡ asked_as w q.now ki.Yield }
    ensures defined { (s : Store) → AreDefinedOpens s (labels_in q.now) → IsDefinedHint s result }
{
    let node = q.node;
    yielded_hint(node.text.bytes(), q.labels, q.hints)
}

/// What a block asks of a statement: it is dropped, unless it is a binding or deferred.
pub(crate) fn statement_hint(q: &Asking<'_>) -> Hint
    ensures { result ≡ above.statement_hint (head q.now.kid.now).kind }
{
    let kid = q.kid;
    match kid.kind {
        Kind::Let | Kind::Const | Kind::Defer => Hint::None,
        _ => Hint::Drop,
    }
}

/// What a case asks of its next kid: this of its pattern or of its values, and of its statements what a block asks of them.
pub(crate) fn case_hint(q: &Asking<'_>, first: &Hint) -> Hint
    ensures { result ≡ above.by_place (length q.now.done.now) (first.now ∷ []) (above.statement_hint (head q.now.kid.now).kind) }
{
    if q.done.len() == 0 {
        return *first;
    }
    statement_hint(q)
}

/// What a `match` or a `switch` asks of its next kid: of its cases what it is itself asked for.
pub(crate) fn operand_hint(q: &Asking<'_>) -> Hint
    ensures matched { (w : Setting) → result ≡ asked_as w q.now ki.Match }
    ensures switched { (w : Setting) → result ≡ asked_as w q.now ki.Switch }
    ensures defined { (s : Store) → IsDefinedHint s q.now.own → IsDefinedHint s result }
{
    if q.done.len() == 0 { Hint::None } else { q.own }
}
