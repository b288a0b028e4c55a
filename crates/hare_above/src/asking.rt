//! What a node asks of its next kid.

ghost use Rattle.std.specs.Prelude.{◌≡◌, IfOk, IfSome};
ghost use Rattle.hare_rules.specs.Above as above;
ghost use Rattle.hare_rules.specs.Context.{Setting};
ghost use Rattle.hare_rules.specs.Words as words;
ghost use Rattle.hare_types.specs.Store.{Store};
ghost use Rattle.hare_types.specs.Later.{IsLater};
ghost use Rattle.rule_judge.specs.Defined.{IsDefined, IsDefinedHint};
ghost use Rattle.rule_judge.specs.Grown.{IsGrown};
ghost use Rattle.hare_tree.specs.Node.{head};
ghost use Rattle.hare_above.specs.Asked.{IsProgram, IsAsking, asked, asked_as};

use crate::calls::argument_hint;
use crate::heap::{allocated_hint, appended_hint, tried_hint};
use crate::statements::{
    binding_hint, branch_hint, case_hint, declared_hint, each_hint, loop_hint, operand_hint,
    statement_hint, yield_hint,
};
use crate::values::{assigned_hint, bound_hint, component_hint, field_hint, item_hint};
use hare_rules::{Hint, Labels};
use hare_tree::{Kids, Kind, Tree};
use hare_typed::TypedKids;
use hare_types::{Scalar, TypeId, TypeStore};
use hx_base::Items;
use rule_judge::{DeclTypes, word};
use std::alloc::{AllocError, Global};

/// A node whose next kid is asked for, and what stands over the node.
#[derive(Clone, Copy)]
pub(crate) struct Asking<'a> {
    /// What the node itself is asked for.
    pub(crate) own: Hint,
    /// What a `switch` right above asks of the values of its cases.
    pub(crate) values: Hint,
    /// The labels round the node.
    pub(crate) labels: &'a Labels,
    /// What is asked of what is yielded to each.
    pub(crate) hints: &'a Items<Hint>,
    /// The type that the function gives.
    pub(crate) result: TypeId,
    /// The node.
    pub(crate) node: &'a Tree,
    /// Its kids before the next one.
    pub(crate) done: &'a TypedKids,
    /// All of its kids.
    pub(crate) kids: &'a Kids,
    /// The next one.
    pub(crate) kid: &'a Tree,
}

/// Whether a part of this kind is no expression and no statement: nothing is asked of it.
pub(crate) fn is_bare_part(k: Kind) -> bool
    ensures { result ≡ above.is_bare_part k }
{
    matches!(
        k,
        Kind::None
            | Kind::TrailingComma
            | Kind::Dots
            | Kind::Message
            | Kind::ByRef
            | Kind::Name
            | Kind::Export
            | Kind::Params
            | Kind::Param
            | Kind::StructField
            | Kind::Spread
            | Kind::Binding
            | Kind::PatternLet
            | Kind::PatternNull
            | Kind::TypeScalar
            | Kind::TypePath
            | Kind::TypePointer
            | Kind::TypeNullable
            | Kind::TypeSlice
            | Kind::TypeArray
            | Kind::TypeStruct
            | Kind::TypeTuple
            | Kind::TypeUnion
            | Kind::TypeError
    )
}

/// A value of the type, where there is one.
pub(crate) fn hint_to(o: Option<TypeId>) -> Hint
    ensures value { result ≡ above.hint_to o }
    ensures defined { (s : Store) → IfSome o (IsDefined s) → IsDefinedHint s result }
{
    match o {
        Some(t) => Hint::Of(t),
        None => Hint::None,
    }
}

/// A value of the type that is written by one word.
pub(crate) fn word_hint(s: &mut TypeStore, k: Scalar) -> Result<Hint, AllocError>
    ensures value { IfOk result (λ h. (f : Store) → IsLater s.new f → h ≡ above.hint_to (words.word_id f k)) }
    ensures defined { IfOk result (IsDefinedHint s.new) }
    ensures grown { IsGrown s.old s.new }
{
    let t = word(s, k)?;
    Ok(Hint::Of(t))
}

/// What a node asks of its kid, where that is an expression or a statement.
fn kind_hint(
    alloc: Global,
    s: &mut TypeStore,
    decls: &DeclTypes,
    q: &Asking<'_>,
) -> Result<Hint, AllocError>
    requires { IsAsking s.old decls.now q.now }
    ensures value { IfOk result (λ h. (w : Setting) → IsProgram s.new decls.now w → h ≡ asked_as w q.now (head q.now.node.now).kind) }
    ensures defined { IfOk result (IsDefinedHint s.new) }
    ensures grown { IsGrown s.old s.new }
{
    let _law = s.declarations();
    let node = q.node;
    match node.kind {
        Kind::Paren | Kind::FieldValue | Kind::Values => Ok(q.own),
        Kind::Logic | Kind::Assert => word_hint(s, Scalar::Bool),
        Kind::Assign => Ok(assigned_hint(q)),
        Kind::Call => argument_hint(s, decls, q),
        Kind::Index | Kind::Slice => bound_hint(s, q),
        Kind::Try | Kind::Force => tried_hint(alloc, s, q),
        Kind::StructLit => Ok(field_hint(s, q)),
        Kind::Tuple => Ok(component_hint(s, q)),
        Kind::Array => item_hint(s, q),
        Kind::Alloc => allocated_hint(s, q),
        Kind::Append => Ok(appended_hint(s, q)),
        Kind::Let => Ok(binding_hint(q)),
        Kind::Const => Ok(binding_hint(q)),
        Kind::Def => Ok(declared_hint(q)),
        Kind::GlobalLet => Ok(declared_hint(q)),
        Kind::GlobalConst => Ok(declared_hint(q)),
        Kind::Defer => Ok(Hint::Drop),
        Kind::If => branch_hint(s, q),
        Kind::For => loop_hint(s, q),
        Kind::ForEach => Ok(each_hint(q)),
        Kind::Return => Ok(Hint::Of(q.result)),
        Kind::Yield => Ok(yield_hint(q)),
        Kind::Block => Ok(statement_hint(q)),
        Kind::Case => Ok(case_hint(q, &Hint::None)),
        Kind::SwitchCase => Ok(case_hint(q, &q.values)),
        Kind::Match => Ok(operand_hint(q)),
        Kind::Switch => Ok(operand_hint(q)),
        _ => Ok(Hint::None),
    }
}

/// What a node asks of its next kid. The answer is that of every later store; the store may grow in types.
pub(crate) fn kid_hint(
    alloc: Global,
    s: &mut TypeStore,
    decls: &DeclTypes,
    q: &Asking<'_>,
) -> Result<Hint, AllocError>
    requires { IsAsking s.old decls.now q.now }
    ensures value { IfOk result (λ h. (w : Setting) → IsProgram s.new decls.now w → h ≡ asked w q.now) }
    ensures defined { IfOk result (IsDefinedHint s.new) }
    ensures grown { IsGrown s.old s.new }
{
    let _law = s.declarations();
    let kid = q.kid;
    if is_bare_part(kid.kind) {
        return Ok(Hint::None);
    }
    kind_hint(alloc, s, decls, q)
}
