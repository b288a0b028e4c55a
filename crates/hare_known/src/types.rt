//! What is known of a declaration by its written types.

ghost use Rattle.std.specs.Prelude.{◌≡◌, ◌++◌, IfOk, IfSome, OnOk, OnErr};
ghost use Rattle.hare_tree.specs.declared.kind.Kind.TheVariants as ki;
ghost use Rattle.hare_tree.specs.Node.{head};
ghost use Rattle.hare_types.specs.Sound.{IsStore};
ghost use Rattle.hare_types.specs.Store.{Store};
ghost use Rattle.hare_types.specs.Later.{IsLater};
ghost use Rattle.hare_depends.specs.Sorts.{sort_of};
ghost use Rattle.hare_walk.specs.Grown.{IsGrown};
ghost use Rattle.hare_whole.specs.Turns.{known_by_types};
ghost use Rattle.hare_written.specs.Program.{AreDefsDefined};
ghost use Rattle.hare_known.specs.Known.{IsKnownByTypes};

use crate::entries::{function_known, global_known, type_known};
use crate::parts::sort_of;
use hare_depends::Sort;
use hare_rules::DeclType;
use hare_tree::Tree;
use hare_typed::TypedKids;
use hare_types::TypeStore;
use rule_judge::DeclTypes;
use std::alloc::{AllocError, Global};

/// What is known of declaration `own` by its written types, where anything is.
fn known_by_types(
    alloc: Global,
    s: &mut TypeStore,
    own: u32,
    decl: &Tree,
    types: &TypedKids,
) -> Result<Option<DeclType>, AllocError>
    ensures value { IfOk result (IsKnownByTypes s.new own decl.now types.now) }
    ensures kind { IfOk result (λ o. IfSome o (λ d. ¬ (d.kind ≡ ki.Def))) }
    ensures grown { IsGrown s.old s.new }
    ensures sound { IsStore s.new }
{
    let _law = s.declarations();
    match sort_of(decl) {
        Sort::Type => {
            let d = type_known(alloc, s, own)?;
            Ok(Some(d))
        }
        Sort::Function => {
            let d = function_known(alloc, own, types)?;
            Ok(Some(d))
        }
        Sort::Constant => Ok(None),
        Sort::Global => {
            let d = global_known(alloc, own, decl.kind, types)?;
            Ok(Some(d))
        }
    }
}

/// Puts what is known of declaration `own` by its written types behind what is known of others: of a type its name, of a function the types
/// of its parameters and its result, of a global its type. Nothing becomes known of a def or of a global without a type.
///
/// The type of each def that is known is in the store, and mentions no name that is not defined.
///
/// A type that is not declared, and types other than those of a well-typed declaration, are answered as want of memory.
pub fn know_types(
    alloc: Global,
    s: &mut TypeStore,
    known: &mut DeclTypes,
    own: u32,
    decl: &Tree,
    types: &TypedKids,
) -> Result<(), AllocError>
    requires defs { AreDefsDefined s.old known.old }
    ensures ok { OnOk result ((l : Store) → IsLater s.new l → known.new ≡ known.old ++
        known_by_types l own (head decl.now).kind (sort_of decl.now) types.now) }
    ensures err { OnErr result (known.new ≡ known.old) }
    ensures defs { AreDefsDefined s.new known.new }
    ensures grown { IsGrown s.old s.new }
    ensures sound { IsStore s.new }
{
    let _law = s.declarations();
    match known_by_types(alloc, s, own, decl, types)? {
        Some(d) => known.push(d),
        None => Ok(()),
    }
}
