//! The walk over a body by the typing rules.

use hare_above::Standing;
use hare_find::bind_before;
use hare_flow::Seen;
use hare_names::Names;
use hare_rules::Locals;
use hare_tree::{Fault, Kids, Stop, Tree};
use hare_typed::{Typed, TypedKids};
use hare_types::TypeStore;
use hare_walk::{At, Walk};
use hx_base::Items;
use rule_judge::DeclTypes;
use std::alloc::{AllocError, Global};

/// What is known as a body is gone over.
#[derive(Drop)]
pub(crate) struct Walker<'a> {
    pub(crate) alloc: Global,
    /// What the paths of the program mean.
    pub(crate) names: &'a Names,
    /// What is known of the declarations.
    pub(crate) decls: &'a DeclTypes,
    /// What stands over the tree at hand.
    pub(crate) standing: Standing,
    /// What has been seen.
    pub(crate) seen: Seen,
    /// What judges are told of bindings.
    pub(crate) told: Locals,
    /// How many values had been yielded when the tree at hand began, and when those round it did, the innermost last.
    pub(crate) begun: Items<usize>,
}

impl<'a> Walk for Walker<'a> {
    ghost use Rattle.hare_check.specs.Keeps.{IsKeptTree};
    ghost use Rattle.hare_check.specs.Walking.{program_over, IsWalking};

    ghost setting = { λ w s. program_over w.names.now w.decls.now s };

    ghost above = { λ w. w.standing.above };

    ghost outer = { λ w. w.standing.outer };

    ghost flow = { λ w. w.seen };

    ghost Ready = { λ w s ps. IsWalking s ps w.decls.now w.standing w.seen w.told w.begun };

    ghost Keeps = { λ s t. IsKeptTree s t };

    fn enter(
        &mut self,
        s: &mut TypeStore,
        node: &Tree,
        done: &TypedKids,
        kids: &Kids,
        kid: &Tree,
        at: At,
    ) -> Result<(), AllocError> {
        let _law = s.declarations();
        let first = self.standing.first();
        bind_before(s, &mut self.seen, &mut self.told, node, done, first)?;
        self.standing
            .enter(self.alloc, s, self.decls, node, done, kids, kid, at)?;
        self.begun.push(self.seen.yielded())
    }

    fn leave(&mut self) {
        self.standing.leave();
        self.begun.pop();
    }

    fn turn(
        &mut self,
        alloc: Global,
        s: &mut TypeStore,
        node: &Tree,
        kids: TypedKids,
    ) -> Result<Typed, Stop<Fault>> {
        let _law = s.declarations();
        let found = self.find(s, node, &kids);
        let _sound = s.declarations();
        let found = found?;
        let tree = self.close(s, node, kids, &found);
        let _still = s.declarations();
        let tree = tree?;
        Ok(tree)
    }

    fn finish(&mut self, mut tree: Typed) -> Typed {
        self.seen.finish(&mut tree);
        tree
    }
}
