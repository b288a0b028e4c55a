//! The constants of values that stand at a case or in a declaration.

ghost use Rattle.std.specs.Prelude.{◌≡◌, IfOk, OnOk};
ghost use Rattle.hare_tree.specs.Node.{head};
ghost use Rattle.hare_types.specs.Store.{Store};
ghost use Rattle.hare_types.specs.Later.{IsLater};
ghost use Rattle.hare_typed.specs.Coats.{with_coercion};
ghost use Rattle.hare_typed.specs.Folded.{folded};
ghost use Rattle.hare_typed.specs.Typed.{marked, mark_of, typed_nodes};
ghost use Rattle.hare_find.specs.Marks as marks;
ghost use Rattle.hare_rules.specs.Values as values;
ghost use Rattle.rule_judge.specs.Defined.{IsDefinedTy, IsDefinedHint};
ghost use Rattle.rule_judge.specs.Grown.{IsGrown};
ghost use Rattle.hare_check.specs.Folding.{with_constant, constant_in};
ghost use Rattle.hare_check.specs.Nodes.{above_of};

use crate::walker::Walker;
use hare_above::Role;
use hare_const::constant;
use hare_find::{Found, typed};
use hare_rules::Hint;
use hare_tree::{Meaning, Tree};
use hare_typed::{Typed, TypedKids};
use hare_types::{Coercion, Ty, TypeStore};
use rule_judge::{default_in, own_coercion, to_type};
use std::alloc::{AllocError, Global};

/// What becomes of the value of a declaration in the end: it goes to what it is asked for, or where nothing is asked to its default.
fn declared_coercion(s: &mut TypeStore, hint: &Hint, a: &Ty) -> Result<Coercion, AllocError>
    requires value { IsDefinedTy s.old a.now }
    requires hint { IsDefinedHint s.old hint.now }
    ensures value { IfOk result (λ r. (f : Store) → IsLater s.new f → r ≡ values.declared_coercion f hint.now a.now) }
    ensures grown { IsGrown s.old s.new }
{
    let _law = s.declarations();
    match hint {
        Hint::None => {
            let o = default_in(s, a)?;
            Ok(to_type(s, a, &o))
        }
        Hint::Of(_) | Hint::Drop => Ok(own_coercion(s, hint, a)),
    }
}

/// Puts into a tree of this declaration the constant that it has where this becomes of its value.
fn fold(
    alloc: Global,
    s: &TypeStore,
    own: u32,
    tree: &mut Typed,
    coercion: Coercion,
) -> Result<(), AllocError>
    ensures tree { OnOk result (tree.new ≡ with_constant (mark_of tree.new).value tree.old) }
    ensures value { OnOk result ((l : Store) → IsLater s.now l →
        (mark_of tree.new).value ≡ folded l own (with_coercion coercion tree.old)) }
{
    if own == u32::MAX {
        return Err(AllocError);
    }
    let stays = tree.coerce;
    tree.coerce = coercion;
    let value = constant(alloc, s, own, tree)?;
    tree.coerce = stays;
    tree.value = value;
    Ok(())
}

impl<'a> Walker<'a> {
    /// Puts the constant of the tree at hand into it, where it has one by its role. The store may grow in types.
    fn fold(&self, s: &mut TypeStore, tree: &mut Typed) -> Result<(), AllocError>
        requires hint { IsDefinedHint s.old (above_of self.now).hint }
        requires ty { IsDefinedTy s.old (mark_of tree.old).ty }
        ensures tree { OnOk result (tree.new ≡ with_constant (mark_of tree.new).value tree.old) }
        ensures value { OnOk result ((l : Store) → IsLater s.new l → (mark_of tree.new).value ≡ constant_in (above_of self.now).inside.role
            l (above_of self.now).hint (above_of self.now).inside.own tree.old) }
        ensures grown { IsGrown s.old s.new }
    {
        let _law = s.declarations();
        let case = self.standing.case();
        let own = case.inside.own;
        let hint = case.hint;
        match self.standing.role() {
            Role::CaseValue => {
                let coercion = own_coercion(s, &hint, &tree.ty);
                fold(self.alloc, s, own, tree, coercion)
            }
            Role::DeclaredValue => {
                let coercion = declared_coercion(s, &hint, &tree.ty)?;
                fold(self.alloc, s, own, tree, coercion)
            }
            Role::Ordinary | Role::Callee | Role::Length | Role::BindingType => Ok(()),
        }
    }

    /// The tree of the node at hand, of which this has been found, with its constant. Its path means this where the constant is worked out.
    /// The store may grow in types.
    pub(crate) fn tree(
        &self,
        s: &mut TypeStore,
        node: &Tree,
        kids: TypedKids,
        found: Found,
        meant: Meaning,
    ) -> Result<Typed, AllocError>
        requires hint { IsDefinedHint s.old (above_of self.now).hint }
        requires ty { IsDefinedTy s.old found.ty }
        ensures tree { IfOk result (λ x. x ≡ marked (head node.now) (record (marks.mark_of found) { value = (mark_of x).value })
            (typed_nodes kids)) }
        ensures value { IfOk result (λ x. (l : Store) → IsLater s.new l → (mark_of x).value ≡ constant_in (above_of self.now).inside.role l
            (above_of self.now).hint (above_of self.now).inside.own
            (marked (head node.now) (record (marks.mark_of found) { meaning = meant }) (typed_nodes kids))) }
        ensures grown { IsGrown s.old s.new }
    {
        let _law = s.declarations();
        let Found {
            node: number,
            ty,
            own,
            meaning,
            value,
        } = found;
        let mut tree = typed(
            self.alloc,
            node,
            Found {
                node: number,
                ty,
                own,
                meaning: meant,
                value,
            },
            kids,
        )?;
        self.fold(s, &mut tree)?;
        tree.meaning = meaning;
        Ok(tree)
    }
}
