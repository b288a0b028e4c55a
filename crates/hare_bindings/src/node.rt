//! The rows of the node of a declaration, over kids that are known to be its own.

ghost use Rattle.std.specs.Prelude.{◌≡◌, true, OnOk, IfErr};
ghost use Rattle.hare_tree.specs.declared.form.Sort.TheVariants as sorts;
ghost use Rattle.hare_tree.specs.Node.{head, kids_of};
ghost use Rattle.hare_tree.specs.Shape.{is_shaped};
ghost use Rattle.hare_typed.specs.Typed.{typed_nodes};
ghost use Rattle.hare_typed.specs.Erased.{erase_each};
ghost use Rattle.rule_ctl.specs.Declaring.{declares};
ghost use Rattle.rule_judge.specs.Defined.{AreDefinedTrees};
ghost use Rattle.rule_judge.specs.Grown.{IsGrown};
ghost use Rattle.hare_bindings.specs.Own as spec;

use crate::inconstant::inconstant_place;
use hare_rules::{Case, Hint, Inside, Locals};
use hare_tree::{Fault, Meaning, Stop, Tree};
use hare_typed::TypedKids;
use hare_types::{Scalar, TypeId, TypeStore};
use hx_base::Items;
use rule_ctl::judge_declaration;
use rule_judge::{DeclTypes, word};
use std::alloc::Global;

/// What is told of a declaration: nothing is asked of it, and nothing stands round it.
fn case_of(alloc: Global, own: u32, gives: TypeId) -> Case
    ensures { result ≡ spec.case_of own gives }
{
    Case {
        hint: Hint::None,
        meaning: Meaning::None,
        yields: Items::new(alloc),
        inside: Inside {
            own,
            result: gives,
            labels: Items::new(alloc),
            deferred: false,
            body: false,
        },
    }
}

/// Judges the node of declaration `own` with these kids: it meets its rows, or this is the fault of the first that fails.
pub(crate) fn judge_node(
    alloc: Global,
    s: &mut TypeStore,
    own: u32,
    decl: &Tree,
    kids: &TypedKids,
) -> Result<(), Stop<Fault>>
    requires kind { declares (head decl.now).kind ≡ true }
    requires shaped { is_shaped sorts.Decl decl.now ≡ true }
    requires kids { erase_each (typed_nodes kids.now) ≡ kids_of decl.now }
    requires types { AreDefinedTrees s.old (typed_nodes kids.now) }
    ensures ok { OnOk result (spec.MeetsRows s.new own decl.now kids.now) }
    ensures err { IfErr result (spec.IsRowsStop s.new own decl.now kids.now) }
    ensures grown { IsGrown s.old s.new }
{
    let _law = s.declarations();
    let inconstant = inconstant_place(alloc, s, own, kids)?;
    let never = word(s, Scalar::Never)?;
    let case = case_of(alloc, own, never);
    let decls = DeclTypes::new(alloc);
    let locals = Locals::new(alloc);
    let _verdict = judge_declaration(alloc, s, &decls, &locals, &case, decl, kids, inconstant)?;
    Ok(())
}
