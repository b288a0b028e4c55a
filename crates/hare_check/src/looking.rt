//! What a walker looks at itself of the node at hand, since no judge is told of it.

ghost use Rattle.std.specs.Prelude.{◌≡◌, true, map, OnOk, IfErr};
ghost use Rattle.hare_tree.specs.declared.kind.Kind.TheVariants as ki;
ghost use Rattle.hare_tree.specs.Node.{head};
ghost use Rattle.hare_types.specs.Store.{Store};
ghost use Rattle.hare_types.specs.Later.{IsLater};
ghost use Rattle.hare_names.specs.Answers.{meaning_in};
ghost use Rattle.hare_rules.specs.Context.{Setting};
ghost use Rattle.hare_rules.specs.Finished.{bare};
ghost use Rattle.hare_rules.specs.Flow.{path_meaning};
ghost use Rattle.hare_told.specs.Told.{has_judge, IsLookedAt};
ghost use Rattle.hare_find.specs.Looked.{MeansInside};
ghost use Rattle.rule_judge.specs.Grown.{IsGrown};
ghost use Rattle.hare_check.specs.Nodes.{program_of, above_of, IsAtNode, IsStopOf, IsTakenAt};
ghost use Rattle.hare_check.specs.Turned.{context_at};

use crate::walker::Walker;
use hare_find::{look_at_binding, look_at_yield};
use hare_tree::{Fault, Kind, Meaning, Stop, Tree};
use hare_typed::TypedKids;
use hare_types::TypeStore;

impl<'a> Walker<'a> {
    /// Looks at what a judge is not told of the node at hand: whether the binding has a type that a path means, and whether a `yield`
    /// without a value is taken by what it means. The store may grow in types.
    pub(crate) fn look(
        &self,
        s: &mut TypeStore,
        node: &Tree,
        kids: &TypedKids,
        meaning: Meaning,
    ) -> Result<(), Stop<Fault>>
        requires node { IsAtNode s.old self.now node.now kids.now }
        requires role { has_judge (above_of self.now).inside.role ≡ true }
        requires meaning { (w : Setting) → w.means ≡ meaning_in self.now.names.now →
            meaning ≡ path_meaning w (head node.now) (head node.now).kind (map bare kids.now) }
        ensures looked { OnOk result ((l : Store) → IsLater s.new l →
            IsLookedAt (context_at (program_of self.now) (above_of self.now) node.now kids.now self.now.seen l)) }
        ensures void { OnOk result ((head node.now).kind ≡ ki.Yield → (l : Store) → IsLater s.new l →
            MeansInside (context_at (program_of self.now) (above_of self.now) node.now kids.now self.now.seen l) →
            IsTakenAt s.new self.now node.now kids.now) }
        ensures err { IfErr result (IsStopOf s.new self.now node.now kids.now) }
        ensures grown { IsGrown s.old s.new }
    {
        let _law = s.declarations();
        match node.kind {
            Kind::Path => {
                let Meaning::Local(n) = meaning else {
                    return Ok(());
                };
                look_at_binding(node.place, &self.seen.binding(n))
            }
            Kind::Yield => {
                let hint = self.standing.yield_hint(node.text.bytes());
                look_at_yield(s, self.standing.case(), node, kids, &hint)
            }
            _ => Ok(()),
        }
    }
}
