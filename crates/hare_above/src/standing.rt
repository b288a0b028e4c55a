//! What stands over the tree at hand, and over the trees round it.

ghost use Rattle.std.specs.Prelude.{◌≡◌, ◌∷◌, ◌++◌, ◌+◌, [], true, false, map, length, drop, slice_get, ℕ, Some, IfOk, OnOk, List};
ghost use Rattle.hare_tree.specs.Node.{head, nodes_of};
ghost use Rattle.hare_types.specs.Store.{Store};
ghost use Rattle.hare_types.specs.Later.{IsLater};
ghost use Rattle.hare_types.specs.Sound.{IsStore};
ghost use Rattle.hare_typed.specs.Typed.{typed_nodes};
ghost use Rattle.hare_typed.specs.Copies.{is_defer};
ghost use Rattle.hare_tree.specs.Node.{Head};
ghost use Rattle.hare_rules.specs.Above.{Above};
ghost use Rattle.hare_rules.specs.Above as above;
ghost use Rattle.hare_rules.specs.Context.{Setting};
ghost use Rattle.hare_rules.specs.Control as control;
ghost use Rattle.hare_rules.specs.Finished.{bare};
ghost use Rattle.rule_judge.specs.Defined.{AreDefinedTrees, IsDefinedHint};
ghost use Rattle.rule_judge.specs.Grown as judged;
ghost use Rattle.hare_walk.specs.Counts.{IsAt};
ghost use Rattle.hare_walk.specs.Grown.{IsGrown};
ghost use Rattle.hare_walk.specs.Walks.{IsOver};
ghost use Rattle.hare_above.specs.Asked.{AreDeclared, labels_in};
ghost use Rattle.hare_above.specs.Frames.{role_in, open_of};
ghost use Rattle.hare_above.specs.Ready.{IsReady, IsKnown};
ghost use Rattle.hare_above.specs.Stands.{start, told_case, inner, labels_with};

use crate::asking::{Asking, hint_to, kid_hint};
use crate::frames::Frame;
use crate::jumps::{yield_level, yielded_hint};
use crate::marks::all_outside;
use crate::role::{Role, role_of};
use hare_rules::{Case, Hint, Inside, Label, Labels, Target, Yields};
use hare_tree::{Kids, Kind, Meaning, Tree, Word};
use hare_typed::TypedKids;
use hare_types::{TypeId, TypeStore};
use hare_walk::At;
use hx_base::Items;
use rule_judge::{DeclTypes, default_in, type_at};
use std::alloc::{AllocError, Global};
use std::marker::Model;
use std::mem::replace;

/// What stands over the tree at hand, and over the trees round it, as a walk goes in and out. Contracts see it as the rules do.
///
/// All trees that the walk is inside of share one stack of labels. A step takes constant time beside its hint, but for a deferred
/// expression: each label round it loses its mark there, and is copied.
#[derive(Drop)]
pub struct Standing {
    /// What the judge of the tree at hand is told.
    case: Case,
    values: Hint,
    role: Role,
    first: u32,
    begins: u32,
    /// What is asked of what is yielded to each label.
    hints: Items<Hint>,
    /// Those of the trees round the one at hand, the innermost last.
    frames: Vec<Frame>,
}

impl Model for Standing {
    ghost use Rattle.std.specs.Prelude.{reverse};
    ghost use Rattle.hare_above.specs.Frames.{AreFramed, opens, outer_at, role_in};
    ghost use Rattle.hare_above.specs.Stands.{Stands};

    ghost Value = { Stands };

    ghost view = { λ a. record {
      above = record {
        hint = a.case.hint;
        values = a.values;
        inside = record {
          own = a.case.inside.own;
          result = a.case.inside.result;
          labels = opens a.case.inside.labels a.hints;
          deferred = a.case.inside.deferred;
          body = a.case.inside.body;
          role = role_in a.role;
        };
        first = a.first;
        begins = a.begins;
      };
      outer = outer_at a.case.inside.own a.case.inside.result (reverse a.frames.items) a.case.inside.labels a.hints;
      meaning = a.case.meaning;
      yields = a.case.yields;
    } };

    ghost invariant = { λ a. AreFramed a.case.inside.labels a.hints a.frames.items };
}

/// What a `switch` asks of the values of its cases: the default of its operand.
fn values_under(s: &mut TypeStore, k: Kind, done: &TypedKids) -> Result<Hint, AllocError>
    requires { AreDefinedTrees s.old (typed_nodes done.now) }
    ensures value { IfOk result (λ h. (w : Setting) (a : Above) → IsLater s.new w.store →
        h ≡ above.values_under w a k (map bare done.now)) }
    ensures defined { IfOk result (IsDefinedHint s.new) }
    ensures grown { judged.IsGrown s.old s.new }
{
    let _law = s.declarations();
    match k {
        Kind::Switch => {
            if done.len() == 0 {
                return Ok(Hint::None);
            }
            let operand = type_at(done, 0);
            let o = default_in(s, &operand)?;
            Ok(hint_to(o))
        }
        _ => Ok(Hint::None),
    }
}

/// What kid number `i` of a node of kind `k`, which is no deferred expression, has round it more than the node: what a jump means by the
/// node.
fn target_round(k: Kind, i: usize) -> Option<Target>
    ensures { (a : Above) (h : Head) (n : ℕ) → is_defer k ≡ false → above.labels_by a h n i k ≡ labels_with a h n result }
{
    match k {
        Kind::For => Some(Target::Loop),
        Kind::Block => Some(Target::Block),
        Kind::ForEach if i != 0 => Some(Target::Loop),
        Kind::Case | Kind::SwitchCase if i != 0 => Some(Target::Case),
        _ => None,
    }
}

impl Standing {
    /// What stands over a body or the value of a declaration, with nothing round it: the number of the declaration; the type that the
    /// function gives, or
    /// `never`; whether it is the body of a function; its role; what it is asked for; and how many bindings of the declaration begin before
    /// it.
    /// Takes no memory.
    pub fn new(
        alloc: Global,
        own: u32,
        gives: TypeId,
        body: bool,
        role: Role,
        hint: Hint,
        first: u32,
    ) -> Standing
        ensures { result ≡ start own gives body (role_in role) hint first }
    {
        Standing {
            case: Case {
                hint,
                meaning: Meaning::None,
                yields: Yields::new(alloc),
                inside: Inside {
                    own,
                    result: gives,
                    labels: Labels::new(alloc),
                    deferred: false,
                    body,
                },
            },
            values: Hint::None,
            role,
            first,
            begins: 0,
            hints: Items::new(alloc),
            frames: Vec::new(alloc),
        }
    }

    /// What the judge of the tree at hand is told beside its kids.
    pub fn case(&self) -> &Case
        ensures { result.now ≡ told_case self.now }
    {
        &self.case
    }

    /// What the tree at hand is to its parent.
    pub fn role(&self) -> Role
        ensures { role_in result ≡ self.now.above.inside.role }
    {
        self.role
    }

    /// How many bindings of the declaration begin before the tree at hand.
    pub fn first(&self) -> u32
        ensures { result ≡ self.now.above.first }
    {
        self.first
    }

    /// How many nodes are finished when the tree at hand begins.
    pub fn begins(&self) -> u32
        ensures { result ≡ self.now.above.begins }
    {
        self.begins
    }

    /// How many labels stand round the tree at hand.
    pub fn level(&self) -> usize
        ensures { result ≡ length self.now.above.inside.labels }
    {
        self.case.inside.labels.len()
    }

    /// How many labels stand round the block or case that a `yield` with this name means at hand; none where it means none. The time is
    /// that of the labels.
    pub fn yield_level(&self, name: &[u8]) -> Option<usize>
        ensures { result ≡ control.yield_level name.now self.now.above.inside.labels }
    {
        yield_level(name, &self.case.inside.labels)
    }

    /// What is asked of a value that a `yield` with this name hands on; nothing where it means nothing. The time is that of the labels.
    pub fn yield_hint(&self, name: &[u8]) -> Hint
        ensures { result ≡ control.hint_of_open (control.block_meant name.now self.now.above.inside.labels) }
    {
        yielded_hint(name, &self.case.inside.labels, &self.hints)
    }

    /// Puts in what the names say of the tree at hand, and what was yielded to it. Takes no memory.
    pub fn tell(&mut self, meaning: Meaning, yields: Yields)
        ensures { self.new ≡ record self.old { meaning = meaning; yields = yields } }
    {
        self.case.meaning = meaning;
        self.case.yields = yields;
    }

    /// The tree at hand, and its next kid.
    fn asking<'a>(
        &'a self,
        node: &'a Tree,
        done: &'a TypedKids,
        kids: &'a Kids,
        kid: &'a Tree,
    ) -> Asking<'a>
        ensures own { result.own ≡ self.now.above.hint }
        ensures values { result.values ≡ self.now.above.values }
        ensures labels { labels_in result ≡ self.now.above.inside.labels }
        ensures hints { length result.hints.now ≡ length result.labels.now }
        ensures gives { result.result ≡ self.now.above.inside.result }
        ensures node { result.node.now ≡ node.now }
        ensures done { result.done.now ≡ done.now }
        ensures kids { result.kids.now ≡ kids.now }
        ensures kid { result.kid.now ≡ kid.now }
    {
        Asking {
            own: self.case.hint,
            values: self.values,
            labels: &self.case.inside.labels,
            hints: &self.hints,
            result: self.case.inside.result,
            node,
            done,
            kids,
            kid,
        }
    }

    /// Goes in, to where the same stands over the tree at hand as over the one round it.
    fn go_in(&mut self) -> Result<(), AllocError>
        ensures { OnOk result (self.new ≡ record self.old { outer = self.old.above ∷ self.old.outer }) }
    {
        let frame = Frame {
            hint: self.case.hint,
            values: self.values,
            deferred: self.case.inside.deferred,
            body: self.case.inside.body,
            role: self.role,
            first: self.first,
            begins: self.begins,
            labels: self.case.inside.labels.len(),
            kept: None,
        };
        self.frames.push(frame)?;
        Ok(())
    }

    /// Puts a label round the tree at hand.
    fn open(&mut self, label: Label, hint: Hint) -> Result<(), AllocError>
        requires { label.deferred ≡ self.old.above.inside.deferred }
        ensures { OnOk result (self.new ≡ record self.old {
          above = record self.old.above
              { inside = record self.old.above.inside { labels = self.old.above.inside.labels ++ open_of label hint ∷ [] } };
        }) }
    {
        let count = self.hints.len();
        self.hints.push(hint)?;
        match self.case.inside.labels.push(label) {
            Ok(()) => Ok(()),
            Err(e) => {
                self.hints.truncate(count);
                Err(e)
            }
        }
    }

    /// Goes into a deferred expression: no label from outside is marked there.
    fn go_in_deferred(&mut self, alloc: Global) -> Result<(), AllocError>
        ensures { OnOk result (self.new ≡ record self.old {
          above = record self.old.above
              { inside = record self.old.above.inside { labels = map above.outside self.old.above.inside.labels; deferred = true } };
          outer =
              self.old.above ∷ self.old.outer;
        }) }
    {
        let inner = all_outside(alloc, &self.case.inside.labels)?;
        let labels = self.case.inside.labels.len();
        let kept = replace(&mut self.case.inside.labels, inner);
        let frame = Frame {
            hint: self.case.hint,
            values: self.values,
            deferred: self.case.inside.deferred,
            body: self.case.inside.body,
            role: self.role,
            first: self.first,
            begins: self.begins,
            labels,
            kept: Some(kept),
        };
        self.frames.push(frame)?;
        self.case.inside.deferred = true;
        Ok(())
    }

    /// Goes in, to the labels that kid number `i` of a node has round it, where the node gets this number.
    pub(crate) fn go_in_to(
        &mut self,
        alloc: Global,
        node: &Tree,
        number: u32,
        i: usize,
    ) -> Result<(), AllocError>
        ensures { OnOk result (self.new ≡ inner self.old (head node.now) number i) }
    {
        if node.kind == Kind::Defer {
            return self.go_in_deferred(alloc);
        }
        self.go_in()?;
        let Some(target) = target_round(node.kind, i) else {
            return Ok(());
        };
        let label = Label {
            name: Word::copy(alloc, node.text.bytes())?,
            target,
            node: number,
            deferred: self.case.inside.deferred,
        };
        let hint = self.case.hint;
        self.open(label, hint)
    }

    /// Says what stands over the tree at hand, but for its labels.
    fn stand(&mut self, hint: Hint, values: Hint, role: Role, at: At)
        ensures { self.new ≡ record self.old {
          above = record self.old.above {
            hint = hint;
            values = values;
            inside = record self.old.above.inside { body = false; role = role_in role };
            first =
                at.first;
            begins = at.begins;
          };
        } }
    {
        self.case.hint = hint;
        self.case.inside.body = false;
        self.values = values;
        self.role = role;
        self.first = at.first;
        self.begins = at.begins;
    }

    /// Goes on to the next kid of the tree at hand, behind those that are done, which stands there. The answer is that of every later
    /// store; the store may grow in types. It fails for want of memory alone; of what stands over any tree nothing is known then.
    ///
    /// The conditions are that `kid` is the kid of `kids` behind those that are done; that `at` says where it stands, behind these; that
    /// each type for which something over the tree at hand asks, the result of the function, and each type that stands in the kids that are
    /// done is in the store and mentions no name that is not defined; and that so does each parameter in `decls`, and the store defines
    /// `rt::nomem`.
    ///
    /// Beside the hint it takes constant time, but that of the labels at a deferred expression, and of the labels and its name at a
    /// `yield`.
    pub fn enter(
        &mut self,
        alloc: Global,
        s: &mut TypeStore,
        decls: &DeclTypes,
        node: &Tree,
        done: &TypedKids,
        kids: &Kids,
        kid: &Tree,
        at: At,
    ) -> Result<(), AllocError>
        requires next { slice_get kids.now (length done.now) ≡ Some kid.now }
        requires at { IsAt self.old.above (head node.now) (map bare done.now) kid.now (nodes_of (drop (length done.now + 1) kids.now)) at }
        requires ready { IsReady s.old self.old }
        requires types { AreDefinedTrees s.old (typed_nodes done.now) }
        requires known { IsKnown s.old decls.now }
        ensures over { IfOk result (λ _. (w : Store → Setting) → AreDeclared decls.now w →
            IsOver w s.new self.old.above (head node.now) done.now kid.now (nodes_of (drop (length done.now + 1) kids.now))
            self.new.above) }
        ensures outer { OnOk result (self.new.outer ≡ self.old.above ∷ self.old.outer) }
        ensures meaning { OnOk result (self.new.meaning ≡ self.old.meaning) }
        ensures yields { OnOk result (self.new.yields ≡ self.old.yields) }
        ensures ready { OnOk result (IsReady s.new self.new) }
        ensures grown { IsGrown s.old s.new }
        ensures types { judged.IsGrown s.old s.new }
        ensures sound { IsStore s.new }
    {
        let _law = s.declarations();
        let q = self.asking(node, done, kids, kid);
        let hint = kid_hint(alloc, s, decls, &q)?;
        let values = values_under(s, node.kind, done)?;
        let i = done.len();
        self.go_in_to(alloc, node, at.number, i)?;
        self.stand(hint, values, role_of(node.kind, i, kid.kind), at);
        Ok(())
    }

    /// Goes back to the tree round the one at hand; nothing changes where there is none. Takes no memory.
    pub fn leave(&mut self)
        ensures above { (a : Above) (rest : List Above) → self.old.outer ≡ a ∷ rest → self.new.above ≡ a }
        ensures outer { (a : Above) (rest : List Above) → self.old.outer ≡ a ∷ rest → self.new.outer ≡ rest }
        ensures none { self.old.outer ≡ [] → self.new ≡ self.old }
        ensures meaning { self.new.meaning ≡ self.old.meaning }
        ensures yields { self.new.yields ≡ self.old.yields }
        ensures ready { (s : Store) → IsReady s self.old → IsReady s self.new }
    {
        let Some(
            Frame {
                hint,
                values,
                deferred,
                body,
                role,
                first,
                begins,
                labels,
                kept,
            },
        ) = self.frames.pop()
        else {
            return;
        };
        self.hints.truncate(labels);
        match kept {
            Some(own) => self.case.inside.labels = own,
            None => self.case.inside.labels.truncate(labels),
        }
        self.case.hint = hint;
        self.case.inside.deferred = deferred;
        self.case.inside.body = body;
        self.values = values;
        self.role = role;
        self.first = first;
        self.begins = begins;
    }
}
