//! What is found of the length of an array.

ghost use Rattle.std.specs.Prelude.{◌≡◌, ◌<◌, ◌^◌, true, cond, length, IfOk, IfSome, Option, Some};
ghost use Rattle.std.specs.Option.{option_or};
ghost use Rattle.hare_tree.specs.declared.form.Sort.{Sort};
ghost use Rattle.hare_tree.specs.Node.{head};
ghost use Rattle.hare_tree.specs.Shape.{is_shaped};
ghost use Rattle.hare_types.specs.declared.coercion.Ty.{Ty};
ghost use Rattle.hare_types.specs.declared.row.Scalar.TheVariants as keyword;
ghost use Rattle.hare_types.specs.Store.{Store};
ghost use Rattle.hare_types.specs.Later.{IsLater};
ghost use Rattle.hare_rules.specs.Context.{Setting, Context, store_of};
ghost use Rattle.hare_rules.specs.Above.{Above};
ghost use Rattle.hare_rules.specs.Constants.{means_def};
ghost use Rattle.hare_rules.specs.Flow.{Flow};
ghost use Rattle.hare_rules.specs.Operators as operators;
ghost use Rattle.hare_rules.specs.Types as types;
ghost use Rattle.hare_rules.specs.Words.{typed_as};
ghost use Rattle.rule_judge.specs.Defined.{IsDefined, IsDefinedTy};
ghost use Rattle.rule_judge.specs.Grown.{IsGrown};
ghost use Rattle.hare_find.specs.Findings.{IsFound, IsDefinedFinding};
ghost use Rattle.hare_find.specs.Lengths.{is_length, IsLengthMeant, IsLengthIn, IsAtLength};

use crate::finding::Finding;
use crate::unsettled::unsettled;
use hare_tree::{Kind, Meaning, Suffix, Tree};
use hare_typed::TypedKids;
use hare_types::{Scalar, Ty, TypeId, TypeStore};
use rule_judge::{DeclTypes, word};
use std::alloc::{AllocError, Global};

/// The word that a suffix is; none where there is no suffix.
fn suffix_word(suffix: Suffix) -> Option<Scalar>
    ensures { result ≡ operators.suffix_word suffix }
{
    match suffix {
        Suffix::None => None,
        Suffix::I8 => Some(Scalar::I8),
        Suffix::I16 => Some(Scalar::I16),
        Suffix::I32 => Some(Scalar::I32),
        Suffix::I64 => Some(Scalar::I64),
        Suffix::U8 => Some(Scalar::U8),
        Suffix::U16 => Some(Scalar::U16),
        Suffix::U32 => Some(Scalar::U32),
        Suffix::U64 => Some(Scalar::U64),
        Suffix::I => Some(Scalar::Int),
        Suffix::U => Some(Scalar::Uint),
        Suffix::Z => Some(Scalar::Size),
    }
}

/// The type of a number with this suffix.
fn number_type(s: &mut TypeStore, suffix: Suffix, number: u128) -> Result<Ty, AllocError>
    requires { number < 2 ^ 127 }
    ensures value { IfOk result (λ a. (f : Store) → IsLater s.new f → operators.number_type_by f (operators.suffix_word suffix) number ≡
        Some a) }
    ensures defined { IfOk result (IsDefinedTy s.new) }
    ensures grown { IsGrown s.old s.new }
{
    let _law = s.declarations();
    match suffix_word(suffix) {
        Some(k) => Ok(Ty::Of(word(s, k)?)),
        None => Ok(Ty::Iconst(number as i128)),
    }
}

/// The type of the def that a path means; none where it means no def.
fn def_type(decls: &DeclTypes, meaning: Meaning) -> Option<TypeId>
    ensures value { (c : Context) (o : Option Ty) → c.setting.decls ≡ decls.now →
        cond (means_def c.setting meaning) (operators.path_type c meaning) o ≡ option_or (typed_as result) o }
    ensures defined { (s : Store) → IsLengthMeant s decls.now meaning → IfSome result (IsDefined s) }
{
    match meaning {
        Meaning::Decl(n) => match decls.find(n) {
            Some(d) => match d.kind {
                Kind::Def => Some(d.ty),
                _ => None,
            },
            None => None,
        },
        Meaning::Local(_) | Meaning::Rt(_) | Meaning::None => None,
    }
}

/// The type of a path that is a length: that of the def that it means, and void where it means none.
fn path_type(s: &mut TypeStore, decls: &DeclTypes, meaning: Meaning) -> Result<Ty, AllocError>
    requires { IsLengthMeant s.old decls.now meaning }
    ensures value { IfOk result (λ a. (c : Context) → IsLater s.new (store_of c) → c.setting.decls ≡ decls.now →
        cond (means_def c.setting meaning) (operators.path_type c meaning) (types.word c keyword.Void) ≡ Some a) }
    ensures defined { IfOk result (IsDefinedTy s.new) }
    ensures grown { IsGrown s.old s.new }
{
    let _law = s.declarations();
    match def_type(decls, meaning) {
        Some(t) => Ok(Ty::Of(t)),
        None => Ok(Ty::Of(word(s, Scalar::Void)?)),
    }
}

/// The type of a length.
fn length_type(
    s: &mut TypeStore,
    decls: &DeclTypes,
    meaning: Meaning,
    node: &Tree,
) -> Result<Ty, AllocError>
    requires kind { is_length (head node.now).kind ≡ true }
    requires shaped { (sort : Sort) × (is_shaped sort node.now ≡ true) }
    requires meant { IsLengthMeant s.old decls.now meaning }
    ensures value { IfOk result (λ a. (c : Context) → IsLengthIn s.new decls.now meaning (head node.now) c →
        types.length_type c c.head.kind ≡ Some a) }
    ensures defined { IfOk result (IsDefinedTy s.new) }
    ensures grown { IsGrown s.old s.new }
{
    let _law = s.declarations();
    match node.kind {
        Kind::Number => number_type(s, node.suffix, node.number),
        Kind::Path => path_type(s, decls, meaning),
        _ => unreachable!(),
    }
}

/// What is found of the length of an array, whose path means this: it has the type of its number or of the def that it names, else void,
/// and it settles nothing. Whether it is a length is asked at the array. The store may grow in types.
///
/// The node is shaped and is a number or a path; a declaration that the path means is known. Fails for want of memory alone.
pub fn find_length(
    alloc: Global,
    s: &mut TypeStore,
    decls: &DeclTypes,
    meaning: Meaning,
    node: &Tree,
    kids: &TypedKids,
) -> Result<Finding, AllocError>
    requires kind { is_length (head node.now).kind ≡ true }
    requires shaped { (sort : Sort) × (is_shaped sort node.now ≡ true) }
    requires meant { IsLengthMeant s.old decls.now meaning }
    ensures ok { IfOk result (λ x. (w : Store → Setting) (a : Above) (f : Flow) → IsAtLength w s.new a f decls.now meaning (head node.now)
        kids.now → IsFound w s.new a (head node.now) kids.now f x) }
    ensures many { IfOk result (λ x. length x.kids ≡ length kids.now) }
    ensures defined { IfOk result (IsDefinedFinding s.new) }
    ensures grown { IsGrown s.old s.new }
{
    let _law = s.declarations();
    let ty = length_type(s, decls, meaning, node)?;
    unsettled(alloc, &ty, kids.len())
}
