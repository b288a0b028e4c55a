//! What is found of the node at hand.

ghost use Rattle.std.specs.Prelude.{◌≡◌, true, List, length, map, IfOk, IfErr};
ghost use Rattle.hare_types.specs.Store.{Store};
ghost use Rattle.hare_typed.specs.Typed.{TypedNode};
ghost use Rattle.hare_tree.specs.Node.{head};
ghost use Rattle.hare_tree.specs.declared.kind.Kind.TheVariants as ki;
ghost use Rattle.hare_tree.specs.Levels as levels;
ghost use Rattle.hare_types.specs.Sound.{IsStore};
ghost use Rattle.hare_above.specs.Ready.{IsKnown};
ghost use Rattle.rule_types.specs.Known.{IsTypeMeant, IsDefinedMeaning};
ghost use Rattle.hare_check.specs.Walking.{AreKnownDecls};
ghost use Rattle.hare_flow.specs.Seen.{given_of};
ghost use Rattle.hare_rules.specs.Context as context;
ghost use Rattle.hare_rules.specs.Flow.{yields_to};
ghost use Rattle.rule_types.specs.Contexts.{role_of};
ghost use Rattle.hare_find.specs.Lengths.{is_length};
ghost use Rattle.hare_find.specs.Plain as plain;
ghost use Rattle.hare_judge.specs.Kinds.{is_judged_kind};
ghost use Rattle.hare_told.specs.Told.{has_judge};
ghost use Rattle.hare_walk.specs.Grown.{IsGrown};
ghost use Rattle.hare_check.specs.Nodes.{above_of, IsAtNode, IsSame, IsFindingOf, IsStopOf};

use crate::known::{is_known, is_known_type};
use crate::meanings::path_meaning;
use crate::walker::Walker;
use hare_above::Role;
use hare_find::{
    Finding, find_callee, find_judged, find_length, find_plain, find_written, is_plain, told_yields,
};
use hare_flow::Handed;
use hare_judge::judge_of;
use hare_tree::{Fault, Kind, Meaning, Stop, Tree};
use hare_typed::TypedKids;
use hare_types::TypeStore;
use hx_base::Items;
use rule_judge::{DeclTypes, Turn};
use rule_types::Written;
use std::alloc::AllocError;

/// Whether a tree of this kind is a written type.
fn is_type(k: Kind) -> bool
    ensures { result ≡ levels.is_type k }
{
    matches!(
        k,
        Kind::TypeScalar
            | Kind::TypePath
            | Kind::TypePointer
            | Kind::TypeNullable
            | Kind::TypeSlice
            | Kind::TypeArray
            | Kind::TypeStruct
            | Kind::TypeTuple
            | Kind::TypeUnion
            | Kind::TypeError
    )
}

/// Whether a tree of this kind can be the length of an array.
fn is_a_length(k: Kind) -> bool
    ensures { result ≡ is_length k }
{
    matches!(k, Kind::Number | Kind::Path)
}

/// Whether a written type that is a path means a type that is known.
fn means_type(decls: &DeclTypes, node: &Tree, meaning: Meaning) -> bool
    ensures defined { result ≡ true → (head node.now).kind ≡ ki.TypePath → (s : Store) → IsKnown s decls.now → AreKnownDecls s decls.now →
        IsDefinedMeaning s meaning }
    ensures meant { result ≡ true → (head node.now).kind ≡ ki.TypePath → (s : Store) → IsStore s → IsKnown s decls.now →
        AreKnownDecls s decls.now → IsTypeMeant s meaning }
{
    match node.kind {
        Kind::TypePath => is_known_type(decls, meaning),
        _ => true,
    }
}

impl<'a> Walker<'a> {
    /// What was yielded to the node at hand.
    fn handed(&self, node: &Tree) -> Result<Items<Handed>, AllocError>
        requires { (s : Store) × (xs : List TypedNode) × IsAtNode s self.now node.now xs }
        ensures { IfOk result (λ gs. map given_of gs ≡ yields_to (head node.now).kind (length (above_of self.now).inside.labels)
            self.now.seen.yields) }
    {
        match node.kind {
            Kind::Block | Kind::Case | Kind::SwitchCase => {
                self.seen
                    .handed(self.alloc, self.from(), self.standing.level())
            }
            _ => Ok(Items::new(self.alloc)),
        }
    }

    /// What a judge finds of the node at hand.
    fn find_by_judge(
        &mut self,
        s: &mut TypeStore,
        node: &Tree,
        kids: &TypedKids,
    ) -> Result<Finding, Stop<Fault>>
        requires node { IsAtNode s.old self.old node.now kids.now }
        requires kind { is_judged_kind (head node.now).kind ≡ true }
        requires role { has_judge (above_of self.old).inside.role ≡ true }
        ensures ok { IfOk result (IsFindingOf s.new self.old node.now kids.now) }
        ensures err { IfErr result (IsStopOf s.new self.old node.now kids.now) }
        ensures same { IsSame self.old self.new }
        ensures grown { IsGrown s.old s.new }
    {
        let _law = s.declarations();
        let meaning = path_meaning(self.names, node, kids);
        if !is_known(self.decls, &self.told, meaning) {
            return Err(Stop::Memory);
        }
        self.look(s, node, kids, meaning)?;
        let gs = self.handed(node)?;
        let yields = told_yields(self.alloc, s, gs.as_slice())?;
        self.standing.tell(meaning, yields);
        let t = Turn {
            decls: self.decls,
            locals: &self.told,
            case: self.standing.case(),
            node,
            kids,
        };
        find_judged(self.alloc, s, &t, gs.as_slice())
    }

    /// What is found of a written type at hand, which is that of a binding or not.
    fn find_type(
        &self,
        s: &mut TypeStore,
        node: &Tree,
        kids: &TypedKids,
        bound: bool,
    ) -> Result<Finding, Stop<Fault>>
        requires node { IsAtNode s.old self.now node.now kids.now }
        requires kind { levels.is_type (head node.now).kind ≡ true }
        requires role { (above_of self.now).inside.role ≡ role_of bound }
        ensures ok { IfOk result (IsFindingOf s.new self.now node.now kids.now) }
        ensures err { IfErr result (IsStopOf s.new self.now node.now kids.now) }
        ensures grown { IsGrown s.old s.new }
    {
        let _law = s.declarations();
        let meaning = path_meaning(self.names, node, kids);
        if !means_type(self.decls, node, meaning) {
            return Err(Stop::Memory);
        }
        let t = Written {
            decls: self.decls,
            meaning,
            bound,
            node,
            kids,
        };
        find_written(self.alloc, s, &t)
    }

    /// What is found of a path at hand that is called.
    fn find_called(
        &self,
        s: &mut TypeStore,
        node: &Tree,
        kids: &TypedKids,
    ) -> Result<Finding, Stop<Fault>>
        requires node { IsAtNode s.old self.now node.now kids.now }
        requires role { (above_of self.now).inside.role ≡ context.Callee }
        ensures ok { IfOk result (IsFindingOf s.new self.now node.now kids.now) }
        ensures err { IfErr result (IsStopOf s.new self.now node.now kids.now) }
        ensures grown { IsGrown s.old s.new }
    {
        let _law = s.declarations();
        match node.kind {
            Kind::Path => {
                let found = find_callee(self.alloc, s, node, kids)?;
                Ok(found)
            }
            _ => Err(Stop::Memory),
        }
    }

    /// What is found of the length of an array at hand.
    fn find_counted(
        &self,
        s: &mut TypeStore,
        node: &Tree,
        kids: &TypedKids,
    ) -> Result<Finding, Stop<Fault>>
        requires node { IsAtNode s.old self.now node.now kids.now }
        requires role { (above_of self.now).inside.role ≡ context.Length }
        ensures ok { IfOk result (IsFindingOf s.new self.now node.now kids.now) }
        ensures err { IfErr result (IsStopOf s.new self.now node.now kids.now) }
        ensures grown { IsGrown s.old s.new }
    {
        let _law = s.declarations();
        let meaning = path_meaning(self.names, node, kids);
        if !is_a_length(node.kind) || !is_known(self.decls, &self.told, meaning) {
            return Err(Stop::Memory);
        }
        let found = find_length(self.alloc, s, self.decls, meaning, node, kids)?;
        Ok(found)
    }

    /// What is found of a node at hand of which nothing is asked.
    fn find_plain(
        &self,
        s: &mut TypeStore,
        node: &Tree,
        kids: &TypedKids,
    ) -> Result<Finding, Stop<Fault>>
        requires node { IsAtNode s.old self.now node.now kids.now }
        requires kind { plain.is_plain (head node.now).kind ≡ true }
        requires role { plain.goes_by_kind (above_of self.now).inside.role ≡ true }
        ensures ok { IfOk result (IsFindingOf s.new self.now node.now kids.now) }
        ensures err { IfErr result (IsStopOf s.new self.now node.now kids.now) }
        ensures grown { IsGrown s.old s.new }
    {
        let _law = s.declarations();
        let found = find_plain(self.alloc, s, node, kids)?;
        Ok(found)
    }

    /// What is found of the node at hand: its type, and what is settled of it and of its kids; or its fault. The store may grow.
    ///
    /// No declaration stands in a body, no expression in the place of a type, and no path means what is not known: these are answered as
    /// want of memory.
    pub(crate) fn find(
        &mut self,
        s: &mut TypeStore,
        node: &Tree,
        kids: &TypedKids,
    ) -> Result<Finding, Stop<Fault>>
        requires { IsAtNode s.old self.old node.now kids.now }
        ensures ok { IfOk result (IsFindingOf s.new self.old node.now kids.now) }
        ensures err { IfErr result (IsStopOf s.new self.old node.now kids.now) }
        ensures same { IsSame self.old self.new }
        ensures grown { IsGrown s.old s.new }
    {
        let _law = s.declarations();
        match self.standing.role() {
            Role::Callee => self.find_called(s, node, kids),
            Role::Length => self.find_counted(s, node, kids),
            Role::BindingType if is_type(node.kind) => self.find_type(s, node, kids, true),
            Role::Ordinary if is_type(node.kind) => self.find_type(s, node, kids, false),
            _ if is_plain(node.kind) => self.find_plain(s, node, kids),
            Role::Ordinary | Role::CaseValue | Role::DeclaredValue
                if judge_of(node.kind).is_some() => { self.find_by_judge(s, node, kids) }
            _ => Err(Stop::Memory),
        }
    }
}
