//! The node of a def or a global.

ghost use Rattle.std.specs.Prelude.{◌≡◌, true, map, IsTrue, IfOk, OnOk, IfErr};
ghost use Rattle.hare_tree.specs.declared.form.Sort.TheVariants as sorts;
ghost use Rattle.hare_tree.specs.Node.{head, kids_of};
ghost use Rattle.hare_tree.specs.Shape.{is_shaped};
ghost use Rattle.hare_types.specs.Sound.{IsStore};
ghost use Rattle.hare_typed.specs.Typed.{typed_nodes};
ghost use Rattle.hare_typed.specs.Erased.{erase, erase_each};
ghost use Rattle.hare_rules.specs.Context.{own_type};
ghost use Rattle.hare_modules.specs.Uses.{kid};
ghost use Rattle.hare_whole.specs.Listing.{written_types};
ghost use Rattle.hare_defined.specs.Known.{AreDefined};
ghost use Rattle.hare_walk.specs.Grown.{IsGrown};
ghost use Rattle.rule_judge.specs.Defined.{IsDefinedTy, AreDefinedTrees};
ghost use Rattle.rule_judge.specs.Grown.{IsGrown as IsGrownInTypes};
ghost use Rattle.rule_ctl.specs.Declaring.{declares};
ghost use Rattle.hare_bindings.specs.Bindings.{IsBinding, IsBindingStop};
ghost use Rattle.hare_bindings.specs.Own.{AreKidsOf};

use crate::known::are_known;
use crate::node::judge_node;
use crate::own::own_kids;
use hare_defined::Defined;
use hare_tree::{Fault, Stop, Tree};
use hare_typed::{Typed, TypedKids};
use hare_types::{Scalar, TypeStore};
use rule_judge::word;
use std::alloc::{AllocError, Global};

/// The kids of the node of a declaration, each type in which is defined.
fn known_kids(
    alloc: Global,
    s: &mut TypeStore,
    defined: &mut Defined,
    decl: &Tree,
    types: &TypedKids,
    value: &Typed,
) -> Result<TypedKids, AllocError>
    requires kind { declares (head decl.now).kind ≡ true }
    requires types { map erase types.now ≡ map (λ r. r.1) (written_types decl.now) }
    requires value { erase value.now ≡ kid decl.now 3 }
    requires defined { AreDefined s.old defined.old }
    ensures kids { IfOk result (AreKidsOf s.new decl.now types.now value.now) }
    ensures erases { IfOk result (λ xs. erase_each (typed_nodes xs) ≡ kids_of decl.now) }
    ensures types { IfOk result (λ xs. AreDefinedTrees s.new (typed_nodes xs)) }
    ensures typed { OnOk result (IsDefinedTy s.new (own_type value.now)) }
    ensures defined { AreDefined s.new defined.new }
    ensures grown { IsGrownInTypes s.old s.new }
{
    let _law = s.declarations();
    let void = word(s, Scalar::Void)?;
    let kids = own_kids(alloc, decl, types, value, void)?;
    if !are_known(s, defined, &kids)? {
        return Err(AllocError);
    }
    Ok(kids)
}

/// Judges the node of declaration `own`, a def or a global, of which the written type, where there is one, and the value have been judged:
/// a type is written or the value has a default, that type has a size, the value is constant, and a def has an integer type, `bool`, `rune`
/// or `str` as its base. Or the fault of the first row that fails. The answer is that of every later store, whatever is known of
/// declarations.
///
/// The conditions are that `decl` is a def or a global and shaped as a declaration; that `types` are trees of its written types, and
/// `value` is one of its value; and that all types in `defined` are in the store, and mention no name that is not defined.
///
/// Types that mention a name which is not defined, a declaration whose number is 2^32 - 1, and a constant that is not worked out
/// (`hare_const::constant` says which those are) are answered as want of memory. The time is that of the value.
pub fn judge_binding(
    alloc: Global,
    s: &mut TypeStore,
    defined: &mut Defined,
    own: u32,
    decl: &Tree,
    types: &TypedKids,
    value: &Typed,
) -> Result<(), Stop<Fault>>
    requires kind { declares (head decl.now).kind ≡ true }
    requires shaped { IsTrue (is_shaped sorts.Decl decl.now) }
    requires types { map erase types.now ≡ map (λ r. r.1) (written_types decl.now) }
    requires value { erase value.now ≡ kid decl.now 3 }
    requires defined { AreDefined s.old defined.old }
    ensures ok { OnOk result (IsBinding s.new own decl.now types.now value.now) }
    ensures typed { OnOk result (IsDefinedTy s.new (own_type value.now)) }
    ensures err { IfErr result (IsBindingStop s.new own decl.now types.now value.now) }
    ensures defined { AreDefined s.new defined.new }
    ensures grown { IsGrown s.old s.new }
    ensures sound { IsStore s.new }
{
    let _law = s.declarations();
    let kids = known_kids(alloc, s, defined, decl, types, value)?;
    judge_node(alloc, s, own, decl, &kids)
}
